// The records of DSID and of DSPM in held form. It promises to the crates above their sizes,
// `dsid_total`, `revised_total` and `dspm_total`, and their bytes, `put_dsid_record`,
// `put_revised_record` (the DSID of an update's result) and `put_dspm_record`. It takes DSID and DSSI
// from `header`, leader and directory from `records`.
#![tactic(auto)]

pub mod front;

// How many bytes the record of DSID, which is at `at`, has in held form.
pub use front::dsid_total;

// How many it has in the result, the update's being at `by`.
pub use front::revised_total;

// The same of the record of DSPM.
pub use front::dspm_total;

// The record of DSID, which is at `at`, with these counts.
pub use front::put_dsid_record;

// The record of DSID in the result, with these counts: the cell's is at `at`, the update's at
// `by`.
pub use front::put_revised_record;

// The record of DSPM, which is at `at`.
pub use front::put_dspm_record;
