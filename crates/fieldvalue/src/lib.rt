// The values of one field, whatever its kind: `value_fault`. It takes each rule from `values`, `headvalues`,
// `dataset` and `attributes`.
#![tactic(auto)]

pub mod value;

// The fault of a field that is no list of attributes.
pub use value::plain_fault;

// Where the first wrong subfield of the record at `at` starts in the file.
pub use value::value_fault;
