// A cell and an update, each read in one pass: `both_once` says that the two have none of the codes 1
// to 8, or nothing: then the code that finds the refusal reads them again. It takes the pass over a
// file from `readonce`, the first repeat of a name from `names`, and words and their sort from
// `words`.
#![tactic(auto)]

pub mod both;
pub mod raise;
pub mod update;

// A cell and an update that are read in one pass each.
pub use both::both_once;
