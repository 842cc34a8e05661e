// The lists of an item: "Repeats of a tag join into one list". It promises to the crates above: `total` and
// `totals`, how many bytes a list has; `put_list`, its bytes; `put_lists`, the four lists of an item,
// one field each and an empty list as none.
#![tactic(auto)]

pub mod lists;

// How many bytes the list of kind k has.
pub use lists::{total, totals};

// The bytes of the list of kind k, copied.
pub use lists::put_list;

// The four lists, one field each.
pub use lists::put_lists;
