// Numbers in bytes, decimal digits, and areas of bytes filled and copied. It knows nothing of
// charts, stands on nothing, and promises every crate above it what is read and what is written, at
// any width, with nothing else of an area touched.
#![tactic(auto)]

pub mod area;
pub mod digits;
pub mod number;
pub mod widths;

// Every byte of the area becomes 0.
pub use area::clear;

// All of `src`, into the area from `at` on; the answer is where it ends.
pub use area::copy;

// The decimal number in the n bytes from `at` on, or NONE where one of them is no digit.
pub use digits::get_digits;

// The same where n isn't known before.
pub use widths::digits_at;

// Those that are known to be digits; and where n isn't known before.
pub use digits::sure_digits;
pub use widths::sure_at;

// The number in the five digits from i on; above 99,999 where there is none.
pub use widths::five_digits;

// The number v in w digits, with leading zeros, from `at` on; the answer is where they end.
pub use digits::put_digits;

// How many digits v takes at the least: 1 for 0.
pub use digits::fewest_digits;

// A byte as a wider number: with its bound, which a cast in place would lose.
pub use number::{get1, get2, get4, get8, wide};

// One byte written at `at`; the answer is where the next byte goes.
pub use number::{put1, put2, put4, put8};
