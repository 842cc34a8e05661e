// The vector or feature record that has a name: `place_named`, where it stands, by the sorted words that
// reading left. It takes the look-up from `lookups`.
#![tactic(auto)]

pub mod named;

// The place of the record of this name, by the m words from word `from` on.
pub use named::place_named;
