// What stands before the lists of a changed item's record: leader and directory, 0001, the identifier
// fields with RVER raised by 1. It promises to the crate above `put_vector` and `put_feature`. It takes
// how a record is written from `records` and `itemrows`.
#![tactic(auto)]

pub mod heading;

// All that stands before the lists of a vector.
pub use heading::put_vector;

// All that stands before the lists of a feature.
pub use heading::put_feature;
