// ISO/IEC 8211 framing: records and fields. It knows nothing of charts. It promises to the crates above:
// `frame` answers how many good records a file has, or which is the first bad one; and of a framed file
// where each record starts and ends and which fields it has. It takes bytes and digits from `octets`.
#![tactic(auto)]

pub mod directory;
pub mod field;
pub mod file;
pub mod leader;
pub mod record;

pub use field::{Field, Head, Record};

// The n rows from i on, at most eight.
pub use directory::batch;

// Where the record at `at` ends.
pub use field::{head_of, record_end};

// Whether the file is one or more good records and nothing after.
pub use file::frame;
