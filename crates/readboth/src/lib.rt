// The reading of a cell, and of a cell and an update, codes 1 to 8 in document 01's order: `read_cell`
// and `read_both`, the calls of reading alone, after which the work area is zero; and `both_fault`,
// codes 4 to 8 of both files, which leaves the names of both in the work area for the crates above. It
// takes each file's codes from `reader`.
#![tactic(auto)]

pub mod both;
pub mod read;

// The first half of the work area stays free for what is made of the names.
pub use both::both_fault;

// Whether a cell is readable.
pub use read::read_cell;

// Whether a cell and an update are both readable.
pub use read::read_both;
