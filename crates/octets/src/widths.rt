// Decimal digits in the widths that leaders and directories mostly have, read without a loop. Two, three and
// five digits are told one way: where the answer says that there is no number, nothing is promised.
ghost use Rattle.std.specs.Prelude.{◌≡◌, ◌+◌, ◌<◌, ◌≤◌, length};
ghost use Rattle.octets.specs.Digits.{none, number_at};
ghost use Rattle.octets.specs.Premises.{Number, Sure};
ghost use Rattle.octets.specs.Told.{DigitTold, NumberTold, FiveTold};

use crate::digits::{NONE, get_digits, sure_digits};
use crate::number::wide;
use std::num::wrapping_sub_u32;

// What the digit at i stands for; above 9 where there is none.
fn digit(s: &[u8], i: usize) -> u32
    requires { i + 1 ≤ length s.now }
    ensures { DigitTold s.now i result }
{
    wrapping_sub_u32(wide(s[i]), 48)
}

fn two_digits(s: &[u8], i: usize) -> u32
    requires { i + 2 ≤ length s.now }
    ensures { NumberTold s.now i 2 result }
{
    let a = digit(s, i);
    let b = digit(s, i + 1);
    if (9 < a) | (9 < b) {
        return NONE;
    }
    10 * a + b
}

fn three_digits(s: &[u8], i: usize) -> u32
    requires { i + 3 ≤ length s.now }
    ensures { NumberTold s.now i 3 result }
{
    let a = digit(s, i);
    let b = digit(s, i + 1);
    let c = digit(s, i + 2);
    if (9 < a) | ((9 < b) | (9 < c)) {
        return NONE;
    }
    100 * a + (10 * b + c)
}

// The number in the five digits from i on; above 99,999 where there is none.
pub fn five_digits(s: &[u8], i: usize) -> usize
    requires { i + 5 ≤ length s.now }
    ensures { FiveTold s.now i result }
{
    let led = two_digits(s, i) as usize;
    let last = three_digits(s, i + 2) as usize;
    1000 * led + last
}

// The same as `get_digits`, for widths that aren't known before: two and three are what most records have,
// and these are read without a loop.
pub fn digits_at(s: &[u8], at: usize, n: usize) -> u32
    requires { (n ≤ 9) × (at + n ≤ length s.now) }
    ensures { Number s.now at n result }
{
    match n {
        2 => get_digits(s, at, 2),
        3 => get_digits(s, at, 3),
        _ => get_digits(s, at, n),
    }
}

// The same as `sure_digits`, for widths that aren't known before.
pub fn sure_at(s: &[u8], at: usize, n: usize) -> u32
    requires { Sure s.now at n }
    ensures { (result ≡ number_at s.now at n) × (result < none) }
{
    match n {
        2 => sure_digits(s, at, 2),
        3 => sure_digits(s, at, 3),
        _ => sure_digits(s, at, n),
    }
}
