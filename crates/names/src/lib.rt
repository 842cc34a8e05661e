// The names of a file's vectors and features: their words in a lent area, in held order, and the first
// name that is met twice. It takes records from `iso8211`, names and their words from `items`, and the
// sort of words from `words`.
#![tactic(auto)]

pub mod collect;
pub mod order;
pub mod twice;
pub mod walk;

pub use twice::Repeat;

// The first record of a vector or a feature.
pub use walk::first_item;

// Where record k starts, or, k being their number, where the last ends.
pub use walk::start_of;
