// The leader of a record, and what must hold of its numbers.
ghost use Rattle.std.specs.Prelude.{◌+◌, ◌≤◌, ◌≡◌, length};
ghost use Rattle.octets.specs.Told.{FiveTold};
ghost use Rattle.recordfine.specs.Premises.{head_good, Opened};

use iso8211::leader::leader_good;
use iso8211::record::digit_at;
use octets::digits::get_digits;
use octets::number::get2;
use octets::widths::five_digits;

// Of a record whose leader is good: where it ends (0: it isn't good), where its fields start, and the two
// digit sizes of its directory.
#[derive(Clone, Copy)]
pub struct Open {
    pub end: usize,
    pub body: usize,
    pub lengths: usize,
    pub positions: usize,
}

// Whether a record of `size` bytes at `at`, its fields from `base` on, lies in the file and has a
// directory of whole rows, two at least.
fn head_good(s: &[u8], at: usize, size: usize, base: usize, l: usize, p: usize) -> bool
    requires { (at ≤ length s.now) × ((size ≤ 1001000000000) × ((base ≤ 1001000000000) × ((l ≤ 9) × (p ≤ 9)))) }
    ensures { result ≡ head_good s.now at size base l p }
{
    if 99999 < size {
        return false;
    }
    if s.len() < at + size {
        return false;
    }
    if size < base {
        return false;
    }
    let w = 4 + l + p;
    if base < 25 + (w + w) {
        return false;
    }
    if (base - 25) % w != 0 {
        return false;
    }
    s[at + base - 1] == 30
}

// The number in the five digits from i on; above 99,999 where there is none. Most records have fewer than
// a thousand bytes, and two zeros there.
fn size_at(s: &[u8], i: usize) -> usize
    requires { i + 5 ≤ length s.now }
    ensures { FiveTold s.now i result }
{
    if get2(s, i) == 12336 {
        return get_digits(s, i + 2, 3) as usize;
    }
    five_digits(s, i)
}

// A leader that isn't good.
fn shut() -> Open
    ensures { result.end ≡ 0 }
{
    Open {
        end: 0,
        body: 0,
        lengths: 0,
        positions: 0,
    }
}

pub fn opened(s: &[u8], at: usize) -> Open
    requires { at ≤ length s.now }
    ensures { Opened s.now at result }
{
    if !leader_good(s, at, false) {
        return shut();
    }
    let size = size_at(s, at);
    let base = size_at(s, at + 12);
    let l = digit_at(s, at + 20);
    let p = digit_at(s, at + 21);
    if !head_good(s, at, size, base, l, p) {
        return shut();
    }
    Open {
        end: at + size,
        body: at + base,
        lengths: l,
        positions: p,
    }
}
