// The directory of an item's record in held form. It promises to the crates above: `list_rows`, the rows of
// the lists from their sizes alone; `vector_rows`, `feature_rows` and `put_lead`, what stands before
// lists; `is_plain` and `rows_of`, whether a record stands as in held form already, and its rows.
#![tactic(auto)]

pub mod lead;
pub mod plain;
pub mod rows;

// 0001 with its running number, and n bytes as they stand.
pub use lead::put_lead;

// The rows before the lists of a vector: 0001, VRID.
pub use lead::vector_rows;

// Those of a feature: 0001, FRID, FOID.
pub use lead::feature_rows;

// Whether the record at `at`, that of a vector or a feature, stands as in held form.
pub use plain::is_plain;

// The rows of the record at `at`, which has at most eight.
pub use plain::rows_of;

// How many bytes the fields of n rows have, each with its 1E: the last ends there.
pub use plain::body_of;
pub use rows::{count_of, sum_of};

// The rows of four lists, behind n others, the first due at `due`.
pub use rows::list_rows;
