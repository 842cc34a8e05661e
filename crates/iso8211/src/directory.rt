// The directory of a record: rows of tag, length and position, kept as an array of small arrays and
// taken a batch of eight at a time.
ghost use Rattle.std.specs.Prelude.{◌+◌, ◌*◌, ◌≤◌, ◌≡◌};
ghost use lib.ListN.{length, take};
ghost use Rattle.octets.specs.Digits.{none};
ghost use Rattle.iso8211.specs.Directory.{tag_at, row_at, row_width, rows, len, position};
ghost use Rattle.iso8211.specs.Premises.{RowStep, BatchStep};

use octets::digits::get_digits;
use octets::number::wide;

pub fn tag_at(s: &[u8], i: usize) -> u32
    requires { i + 4 ≤ length s.now }
    ensures { result ≡ tag_at s.now i }
{
    ((wide(s[i]) * 256 + wide(s[i + 1])) * 256 + wide(s[i + 2])) * 256 + wide(s[i + 3])
}

// The row at i, with l digits of length and p of position.
pub fn row_at(s: &[u8], l: usize, p: usize, i: usize) -> [u32; 3]
    requires { (l ≤ 9) × ((p ≤ 9) × (i + row_width l p ≤ length s.now)) }
    ensures { (result ≡ row_at s.now l p i) × ((len result ≤ none) × (position result ≤ none)) }
{
    let length = get_digits(s, i + 4, l);
    let position = get_digits(s, i + 4 + l, p);
    let tag = tag_at(s, i);
    [tag, length, position]
}

// The n rows from i on, at most eight.
pub fn batch(s: &[u8], l: usize, p: usize, i: usize, n: usize) -> [[u32; 3]; 8]
    requires { (l ≤ 9) × ((p ≤ 9) × ((n ≤ 8) × (i + n * row_width l p ≤ length s.now))) }
    ensures { take n result ≡ rows n s.now l p i }
{
    let mut out = [[0u32; 3]; 8];
    let mut at = i;
    for row in &mut out[..n] {
        *row = row_at(s, l, p, at);
        at += 4 + l + p;
    }
    out
}

// Where the next field is due if that of one row, of these two numbers, is good, due at `due` in the
// `size` bytes of fields from `body` on.
fn field_step(
    s: &[u8],
    body: usize,
    size: usize,
    length: u32,
    position: u32,
    due: usize,
) -> Option<usize>
    requires { (body + size ≤ lib.ListN.length s.now) × (due ≤ size) }
    ensures { RowStep s.now body size length position due result }
{
    let long = length as usize;
    if position as usize != due {
        return None;
    }
    if long < 1 {
        return None;
    }
    if size < due + long {
        return None;
    }
    if s[body + (due + long) - 1] != 30 {
        return None;
    }
    Some(due + long)
}

// Where the next field is due if those of the first n rows of a batch are good.
pub fn judged(
    s: &[u8],
    body: usize,
    size: usize,
    batch: [[u32; 3]; 8],
    n: usize,
    due: usize,
) -> Option<usize>
    requires { (body + size ≤ length s.now) × ((due ≤ size) × (n ≤ 8)) }
    ensures { BatchStep s.now body size (take n batch) due result }
{
    let mut at = due;
    for k in 0..n {
        let row = batch[k];
        at = field_step(s, body, size, row[1], row[2], at)?;
    }
    Some(at)
}
