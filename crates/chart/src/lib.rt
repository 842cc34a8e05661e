// The reading of a file's records. It promises, for a framed file, the first thing in it that breaks
// document 01's rules under Described, Layout and Value, with the record and the byte; it takes the
// words of a refusal from `answers`, the framing from `iso8211`, record 0 from `described`, one
// record's layout from `layout`, and its values from `fieldvalue`.
#![tactic(auto)]

pub mod read;

// The first thing in a framed file of n records that breaks Described, Layout or Value.
pub use read::read_fault;

// The same where the records before one are known to be good.
pub use read::read_fault_from;
