// The true counts of DSSI, from the items of an update's result: `tally_items`. It takes the walk over
// them from `merge`, and how a record is counted from `counted`.
#![tactic(auto)]

pub mod tally;

// The counts of all items.
pub use tally::tally_items;
