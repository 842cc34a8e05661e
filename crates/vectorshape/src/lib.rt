// Whether a vector has the shape of its class: its coordinates within COMF's limits, an edge's ends.
#![tactic(auto)]

pub mod coordinate;
pub mod vector;

// Whether a vector has them, and its coordinates are within their limits.
pub use vector::vector_good;
