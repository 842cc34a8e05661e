// Rules that several fields share.
ghost use Rattle.std.specs.Prelude.{◌+◌, ◌≤◌, ◌≡◌, length};
ghost use Rattle.values.specs.Rule.{within, rcid_good, rver_good, ruin_good, profile_of, digits_within};

use octets::digits::get_digits;
use octets::number::{get2, get4, wide};

// Whether v is from `low` to `high`.
pub fn within(v: u32, low: u32, high: u32) -> bool
    ensures { result ≡ within low high v }
{
    if v < low {
        return false;
    }
    v <= high
}

// Whether the four bytes from `at` on are an RCID.
pub fn rcid_good(s: &[u8], at: usize) -> bool
    requires { at + 4 ≤ length s.now }
    ensures { result ≡ rcid_good s.now at }
{
    within(get4(s, at), 1, 4294967294)
}

// Whether the two bytes from `at` on are an RVER.
pub fn rver_good(s: &[u8], at: usize) -> bool
    requires { at + 2 ≤ length s.now }
    ensures { result ≡ rver_good s.now at }
{
    1 <= get2(s, at)
}

// Whether the byte is a RUIN of a cell, or of an update.
pub fn ruin_good(ruin: u8, update: bool) -> bool
    ensures { result ≡ ruin_good update ruin }
{
    if update {
        return within(wide(ruin), 1, 3);
    }
    within(wide(ruin), 1, 1)
}

// The EXPP and the PROF of a cell, or of an update.
pub fn profile(update: bool) -> u8
    ensures { result ≡ profile_of update }
{
    if update {
        return 2;
    }
    1
}

// Whether the bytes from `from` up to `to` are one to `width` digits that make a number from `least`
// to `most`.
pub fn digits_within(s: &[u8], from: usize, to: usize, width: usize, least: u32, most: u32) -> bool
    requires { (from ≤ to) × (to ≤ length s.now) × (width ≤ 9) }
    ensures { result ≡ digits_within width least most s.now from to }
{
    let n = to - from;
    if n < 1 {
        return false;
    }
    if width < n {
        return false;
    }
    within(get_digits(s, from, n), least, most)
}
