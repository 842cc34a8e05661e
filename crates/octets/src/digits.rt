// Decimal digits of a stated width, read and written.
ghost use Rattle.std.specs.Prelude.{◌≡◌, ◌+◌, ◌<◌, ◌≤◌, length};
ghost use Rattle.octets.specs.Digits.{none, number_at, digits_of, fewest};
ghost use Rattle.octets.specs.Premises.{Number, Sure};
ghost use Rattle.octets.specs.Area.{Wrote};

use crate::number::{put1, wide};

// "No number": more than nine digits can say.
pub const NONE: u32 = 1000000000;

// The decimal number in the n bytes from `at` on, or NONE where one of them is no digit. Small, so that the
// compiler puts it into its callers, most of which know the width.
pub fn get_digits(s: &[u8], at: usize, n: usize) -> u32
    requires { (n ≤ 9) × (at + n ≤ length s.now) }
    ensures { Number s.now at n result }
{
    let mut led: u32 = 0;
    for &b in &s[at..at + n] {
        if !b.is_ascii_digit() {
            return NONE;
        }
        led = led * 10 + (wide(b) - 48);
    }
    led
}

// The same where the n bytes are known to be digits: none of them is tested.
pub fn sure_digits(s: &[u8], at: usize, n: usize) -> u32
    requires { Sure s.now at n }
    ensures { (result ≡ number_at s.now at n) × (result < none) }
{
    let mut led: u32 = 0;
    for &b in &s[at..at + n] {
        led = led * 10 + (wide(b) - 48);
    }
    led
}

// The number v in w digits, with leading zeros, from `at` on; the answer is where they end. Written
// from the back, so that no power of ten is computed.
pub fn put_digits(area: &mut [u8], at: usize, w: usize, v: u32) -> usize
    requires { at + w ≤ length area.old }
    ensures { Wrote area.old at (digits_of w v) area.new result }
{
    let mut left = v;
    for k in (0..w).rev() {
        put1(area, at + k, (48 + left % 10) as u8);
        left /= 10;
    }
    at + w
}

// How many digits v takes at the least: 1 for 0.
pub fn fewest_digits(v: u32) -> usize
    ensures { (result ≡ fewest v) × ((1 ≤ result) × (result ≤ 10)) }
{
    v.max(1).ilog10() as usize + 1
}
