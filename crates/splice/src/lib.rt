// The edit of a list by its control, on the bytes of its entries: `put_spliced`. Held and brought entries
// are two slices, and the edited list is written into an area. It promises the bytes that `edits` defines.
#![tactic(auto)]

pub mod control;
pub mod list;

// The list edited by its control, written from `at` on: where it ends; none where the control
// may not act.
pub use list::put_spliced;

// The bytes of `src` between two places.
pub use list::copy_part;
