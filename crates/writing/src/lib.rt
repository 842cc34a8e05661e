// The vectors and features of a cell in held form. It promises to the crates above: `measure`, how
// long the records of the cell's items are together and the longest of them, and whether all are the
// held form's already; `put_items`, their bytes, one behind the other; `put_copies`, the same where all
// are the held form's; `size_of` and `put_item`, the same of one item. It takes the rows of a record from
// `itemrows`, its lists from `joining`, what an item's fields are from `itemfields`, records that are copied
// whole from `asheld`, and from the crates below a cell in which nothing was refused.
#![tactic(auto)]

pub mod all;
pub mod item;
pub mod joined;

// The sizes of the records of the items of m words: for the limits of the held form, and for
// the room that `put_items` and `put_copies` ask for.
pub use all::measure;

// The records of the items of m words, in the order of the words, from `place` on; the answer
// is where they end.
pub use all::put_items;

// The same where all records are known to be the held form's: each is copied whole.
pub use all::put_copies;

// How long the record of the item at `at` is in held form.
pub use item::size_of;

// The record of the item at `at`, in held form.
pub use item::put_item;
