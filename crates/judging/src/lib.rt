// The call Judge: `judge`, the verdict on a cell; and `cell_verdict`, the verdict on one without any
// of the codes 1 to 8, for the calls above. It accepts all bytes and all areas; the work area is zero
// afterwards. It takes reading from `readonce` and codes 17 to 19 from `topology`.
#![tactic(auto)]

pub mod judge;

// The verdict on a cell that has none of the codes 1 to 8.
pub use judge::cell_verdict;
