// The listing of a cell as text: `row_at`, the numbers of an item's row; `put_line`, `put_refused` and
// `put_header`, the lines.
#![tactic(auto)]

pub mod row;
pub mod text;

// RCNM, RCID, RVER and the three sizes of the record at `at`.
pub use row::row_at;

// A line of numbers, `first` the first of them.
pub use text::put_line;

// The one line of a refusal, at the front of the area.
pub use text::put_refused;

// The line that names the columns, at the front of the area.
pub use text::put_header;
