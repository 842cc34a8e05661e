// One record: whether its framing is good.
ghost use Rattle.std.specs.Prelude.{◌+◌, ◌-◌, ◌*◌, ◌≤◌, min, ◌≡◌, IfSome, length};
ghost use Rattle.octets.specs.Number.{byte_at};
ghost use Rattle.octets.specs.Place.{some_place};
ghost use Rattle.iso8211.specs.Directory.{row_width, rows};
ghost use Rattle.iso8211.specs.Record.{in_row, body_good};
ghost use Rattle.iso8211.specs.Premises.{good_end};

use crate::directory::{batch, judged};
use crate::leader::leader_good;
use octets::digits::get_digits;
use octets::number::wide;

// How many of the rows that are left the next batch has.
fn batch_size(left: usize) -> usize
    ensures { result ≡ min left 8 }
{
    if left < 8 { left } else { 8 }
}

// Whether the `count` rows from i on are in row, and their fields fill the `size` bytes from `body`
// on.
fn fields_good(
    s: &[u8],
    l: usize,
    p: usize,
    i: usize,
    count: usize,
    body: usize,
    size: usize,
) -> bool
    requires { (l ≤ 9) × ((p ≤ 9) × ((i + count * row_width l p ≤ length s.now) × (body + size ≤ length s.now))) }
    ensures { result ≡ in_row s.now body size (rows count s.now l p i) 0 }
{
    let mut at = i;
    let mut left = count;
    let mut due: usize = 0;
    // A while: the step is the batch's own size, which is less at the end.
    while 0 < left {
        let n = batch_size(left);
        let rows = batch(s, l, p, at, n);
        let Some(next) = judged(s, body, size, rows, n, due) else {
            return false;
        };
        due = next;
        at += n * (4 + l + p);
        left -= n;
    }
    due == size
}

// Whether a record of `size` bytes at `at`, its fields from `base` on, has a good directory and
// fields.
fn body_good(s: &[u8], at: usize, size: usize, base: usize, l: usize, p: usize) -> bool
    requires { (at ≤ length s.now) × ((size ≤ 1000000000) × ((base ≤ 1000000000) × ((l ≤ 9) × (p ≤ 9)))) }
    ensures { result ≡ body_good s.now at size base l p }
{
    if 99999 < size {
        return false;
    }
    if s.len() < at + size {
        return false;
    }
    if size < base {
        return false;
    }
    let w = 4 + l + p;
    if base < 25 + w {
        return false;
    }
    if (base - 25) % w != 0 {
        return false;
    }
    if s[at + base - 1] != 30 {
        return false;
    }
    fields_good(s, l, p, at + 24, (base - 25) / w, at + base, size - base)
}

// The sizes of length and position, from their two digits.
pub fn digit_at(s: &[u8], i: usize) -> usize
    requires { (i + 1 ≤ length s.now) × ((49 ≤ byte_at s.now i) × (byte_at s.now i ≤ 57)) }
    ensures { (result ≡ byte_at s.now i - 48) × (result ≤ 9) }
{
    (wide(s[i]) - 48) as usize
}

// Where the record at `at` ends; none where its framing is broken.
pub fn good_end(s: &[u8], at: usize, first: bool) -> Option<usize>
    requires { at ≤ length s.now }
    ensures { (result ≡ some_place (good_end first s.now at)) × IfSome result (λ end. end ≤ length s.now) }
{
    if !leader_good(s, at, first) {
        return None;
    }
    let size = get_digits(s, at, 5) as usize;
    let base = get_digits(s, at + 12, 5) as usize;
    let l = digit_at(s, at + 20);
    let p = digit_at(s, at + 21);
    if !body_good(s, at, size, base, l, p) {
        return None;
    }
    Some(at + size)
}
