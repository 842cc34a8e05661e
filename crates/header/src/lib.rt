// The records in front of the vectors and features, as the held form has them: record 0, and the
// fields DSID and DSSI. It takes where the texts of DSID end from `dataset` and the counts of DSSI
// from `counted`, and writes into a lent area; the crates above put the fields into their records.
#![tactic(auto)]

pub mod dsid;
pub mod dssi;
pub mod first;

pub use dsid::parts_of;

// How many bytes the DSID f has in held form.
pub use dsid::dsid_size;

// The DSID f in held form.
pub use dsid::put_dsid;

// How many bytes the DSID f of a cell has in held form once the update with the DSID g is
// applied.
pub use dsid::revised_size;

// The DSID f of a cell once the update with the DSID g is applied.
pub use dsid::put_revised;
pub use dssi::put_dssi;

// Record 0, which is the same for every cell.
pub use first::put_first;
