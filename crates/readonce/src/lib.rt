// A file read once: one pass over its bytes frames it, lays out and judges each record and keeps the
// words of the names. `cell_read` says that a cell has none of the codes 1 to 8, or gives the refusal:
// where the pass finds a record that it doesn't know to be good, the code that finds the refusal goes on
// there. It takes the walk over one record from `recordfine`, record 0 from `described`, names and counts
// from `names` and `counted`, and the codes from `reader`.
#![tactic(auto)]

pub mod cell;
pub mod pass;
pub mod record;

// A cell that is read.
pub use cell::cell_read;
