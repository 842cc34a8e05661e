// Whether eight digits are a date, leap years as the calendar has them.
#![tactic(auto)]

pub mod date;

// Whether the eight bytes from `at` on are a date, YYYYMMDD.
pub use date::date_good;
