// The record of a changed item: `put_edited_record` builds it in held form in a lent area from the cell's
// record and the update's, so that the crates above read it as they read a record of a file. It takes
// the edited lists from `amend`, and what stands before them from `raising`.
#![tactic(auto)]

pub mod record;

// The record of the object that the modify at `by` makes of the cell's record at `at`, with the
// running number 0; the answer is where it starts.
pub use record::put_edited_record;
