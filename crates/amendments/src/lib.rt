// Codes 13 to 16: `amendments_fault`, each record of an update against the cell that it finds. It
// takes the look-up of a name among the cell's words from `lookups`, where the update's records start
// from `names`, what a record says from `items`, and whether it may do so from `allowed`.
#![tactic(auto)]

pub mod code;
pub mod fault;

// The records of an update of m records, in the file's order, against the cell, whose n words
// stand in the work area from word `from` on.
pub use fault::amendments_fault;
