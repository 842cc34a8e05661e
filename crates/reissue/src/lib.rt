// The held form of a cell, whole: `planned`, how long it is and whether it keeps its limits, found before
// a byte is written, and `put_chart`, its bytes. It takes record 0 from `header`, the records of DSID and
// DSPM from `fronts`, the vectors and features from `writing`, and the held order from the words that
// reading left in the work area.
#![tactic(auto)]

pub mod plan;
pub mod tally;
pub mod write;

// Whether n records, the longest of `most` bytes, `total` bytes in all, keep the limits.
pub use plan::within_limits;

// The plan of a cell of m items.
pub use plan::planned;

// The class of a vector, by its place in held order.
pub use tally::class_of;

// The held form of a cell of m items, into the front of an area that has room for it.
pub use write::put_chart;
