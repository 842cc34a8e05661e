// The reading of one file, a cell or an update, up to "readable" or the one refusal in document 01's
// order: `opened`, codes 1 and 2; `cell_fault`, a cell's codes 4 to 8; `update_fault`, an update's 4
// to 7. It takes the framing from `iso8211`, the records from `chart`, the names from `names` and the
// counts from `counted`. A file without refusal leaves the words of its names in the work area, in
// held order: the calls above zero it.
#![tactic(auto)]

pub mod fault;
pub mod front;

// A cell's codes 4 to 8.
pub use fault::cell_fault;

// The same where the records before one are known to be good.
pub use fault::cell_fault_from;

// A file opened: codes 1 and 2.
pub use front::opened;

// The same in two steps: record 0, and the records from one on.
pub use front::{opened_from, started};

// An update's codes 4 to 7.
pub use fault::update_fault;
