// Document 01's rules under "Values" for the header: `dssi_fault` and `dspm_fault`, and what a text may hold.
// DSID has a crate of its own. It takes the rule of one number from `values`.
#![tactic(auto)]

pub mod dspm;
pub mod dssi;
pub mod text;

// Whether the subfields of a DSPM fill the field: it ends where its text does.
pub use dspm::dspm_laid;

// The fault of a DSPM.
pub use dspm::dspm_fault;

// The fault of a DSSI.
pub use dssi::dssi_fault;

// Whether the bytes from `from` up to `to` are text.
pub use text::text_good_in;

// Where the text that begins at `from` ends: at the first 1F, or where `s` ends.
pub use text::text_end;
