// The edit of a list of attributes, by their labels: `put_attributes`. Held and brought entries are two
// slices, and the edited list is written into an area. It promises the bytes that `edits` defines.
#![tactic(auto)]

pub mod labels;

// The attributes edited by their labels, written from `at` on: where they end; none where a
// removal finds nothing.
pub use labels::put_attributes;
