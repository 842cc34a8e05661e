// The counts that DSSI gives against those of the records (`counts_good`), and how a record is counted
// (`add_vector`, `add_feature`).
#![tactic(auto)]

pub mod counts;

// The tally with a vector of this RCNM.
pub use counts::add_vector;

// The tally with a feature of this class.
pub use counts::add_feature;

// Whether DSSI counts the records of a cell of n records truly.
pub use counts::counts_good;

// The same, from their tally.
pub use counts::tally_counts;
