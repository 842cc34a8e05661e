// A descriptive field of record 0, `cut` into its name, labels and formats, and whether bytes are the same
// (`same_bytes`). It promises where each part begins and ends.
#![tactic(auto)]

pub mod descriptive;

// The parts of a whole field, its closing 1E included.
pub use descriptive::cut;

// Whether the bytes of `s` from `from` to `to` are those of `t`.
pub use descriptive::same_bytes;
