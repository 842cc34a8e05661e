// One descriptive field of record 0 against the table: `describes_at`, whether its labels and formats
// are those expected. It takes the cut of the field from `fieldparts` and format lists written out
// from `formats`; the texts that are expected are those of `table`.
#![tactic(auto)]

pub mod field;
pub mod texts;

// The same of a field in its file.
pub use field::describes_at;
