// Dates of the Gregorian calendar.
ghost use Rattle.std.specs.Prelude.{◌+◌, ◌≤◌, ◌≡◌, length};
ghost use Rattle.dates.specs.Date.{is_leap, days_in, is_date, date_good};

use octets::digits::get_digits;

// Whether the year has a 29 February.
fn is_leap(y: u32) -> bool
    ensures { result ≡ is_leap y }
{
    if y % 4 != 0 {
        return false;
    }
    if y % 100 != 0 {
        return true;
    }
    y % 400 == 0
}

// How many days the month has.
fn days_in(y: u32, m: u32) -> u32
    ensures { result ≡ days_in y m }
{
    if m == 2 {
        if is_leap(y) {
            return 29;
        }
        return 28;
    }
    if m == 4 {
        return 30;
    }
    if m == 6 {
        return 30;
    }
    if m == 9 {
        return 30;
    }
    if m == 11 {
        return 30;
    }
    31
}

// Whether year, month and day are a date of the years 1 to 9,999.
fn is_date(y: u32, m: u32, d: u32) -> bool
    ensures { result ≡ is_date y m d }
{
    if y < 1 {
        return false;
    }
    if 9999 < y {
        return false;
    }
    if m < 1 {
        return false;
    }
    if 12 < m {
        return false;
    }
    if d < 1 {
        return false;
    }
    d <= days_in(y, m)
}

// Whether the eight bytes from `at` on are a date, YYYYMMDD.
pub fn date_good(s: &[u8], at: usize) -> bool
    requires { at + 8 ≤ length s.now }
    ensures { result ≡ date_good s.now at }
{
    let y = get_digits(s, at, 4);
    let m = get_digits(s, at + 4, 2);
    let d = get_digits(s, at + 6, 2);
    is_date(y, m, d)
}
