// The held form of what an update makes of a cell, whole: `planned`, how long it is and whether it keeps
// its limits, found before a byte is written, and `put_result`, its bytes; records that the first found to
// be the held form's already are copied by the second without another test. It takes the items of the
// result from the walk of `merge`, the record of a changed item from `resultitems`, each record in held
// form from `writing`, the counts from `resultcounts` and the records in front from `revisedfront`.
#![tactic(auto)]

pub mod all;
pub mod item;
pub mod write;

// The plan of a result of `count` items, and whether the records of those that aren't changed are known
// to be the held form's.
pub use write::planned;

// The held form of the result, into the front of an area that has room for it.
pub use write::put_result;
