// Leader and directory of a data record, written from its rows: tag, length and position of each
// field.
ghost use Rattle.std.specs.Prelude.{◌+◌, ◌*◌, ◌≤◌, ◌<◌, max, ◌≡◌, [], ◌∷◌, length, take};
ghost use Rattle.octets.specs.Area.{Wrote};
ghost use Rattle.octets.specs.Digits.{digits_of};
ghost use Rattle.iso8211.specs.Directory.{row_width};
ghost use Rattle.records.specs.Written.{tag_bytes, row_bytes, rows_bytes, longest, farthest, base_for, leader_of, head_over, head_bytes};

use octets::area::copy;
use octets::digits::{fewest_digits, put_digits};
use octets::number::put1;

// The larger of two numbers.
pub fn larger(a: u32, b: u32) -> u32
    ensures { result ≡ max a b }
{
    a.max(b)
}

// The longest field of the first n rows.
fn longest_of(rows: [[u32; 3]; 8], n: usize) -> u32
    requires { n ≤ 8 }
    ensures { result ≡ longest (take n rows) }
{
    rows[..n].iter().map(|row| row[1]).max().unwrap_or(0)
}

// The position farthest back of the first n rows.
fn farthest_of(rows: [[u32; 3]; 8], n: usize) -> u32
    requires { n ≤ 8 }
    ensures { result ≡ farthest (take n rows) }
{
    rows[..n].iter().map(|row| row[2]).max().unwrap_or(0)
}

// Two bytes, one after the other.
fn put_two(out: &mut [u8], at: usize, a: u8, b: u8) -> usize
    requires { at + 2 ≤ length out.old }
    ensures { Wrote out.old at (a ∷ b ∷ []) out.new result }
{
    let next = put1(out, at, a);
    put1(out, next, b)
}

// A tag's four bytes, the highest first.
fn put_tag(out: &mut [u8], at: usize, tag: u32) -> usize
    requires { at + 4 ≤ length out.old }
    ensures { Wrote out.old at (tag_bytes tag) out.new result }
{
    let next = put_two(
        out,
        at,
        (tag / 256 / 256 / 256) as u8,
        (tag / 256 / 256 % 256) as u8,
    );
    put_two(out, next, (tag / 256 % 256) as u8, (tag % 256) as u8)
}

// A row with l digits of length and p of position.
fn put_row(
    out: &mut [u8],
    at: usize,
    tag: u32,
    len: u32,
    position: u32,
    l: usize,
    p: usize,
) -> usize
    requires { at + row_width l p ≤ length out.old }
    ensures { Wrote out.old at (row_bytes l p (tag ∷ len ∷ position ∷ [])) out.new result }
{
    let next = put_tag(out, at, tag);
    let last = put_digits(out, next, l, len);
    put_digits(out, last, p, position)
}

// The first n rows.
fn put_rows(out: &mut [u8], at: usize, rows: [[u32; 3]; 8], n: usize, l: usize, p: usize) -> usize
    requires { (n ≤ 8) × (at + length (rows_bytes l p (take n rows)) ≤ length out.old) }
    ensures { Wrote out.old at (rows_bytes l p (take n rows)) out.new result }
{
    let mut next = at;
    for row in &rows[..n] {
        next = put_row(out, next, row[0], row[1], row[2], l, p);
    }
    next
}

// The end of a leader: three spaces, the two digit sizes, 04.
fn put_sizes(out: &mut [u8], at: usize, l: usize, p: usize) -> usize
    requires { (l ≤ 10) × ((p ≤ 10) × (at + 7 ≤ length out.old)) }
    ensures { Wrote out.old at (32 ∷ 32 ∷ 32 ∷ (48 + l) ∷ (48 + p) ∷ 48 ∷ 52 ∷ []) out.new result }
{
    let a = copy(b"   ", out, at);
    let b = put_two(out, a, (48 + l) as u8, (48 + p) as u8);
    copy(b"04", out, b)
}

// Five digits: with where they end as a number.
fn put_five(out: &mut [u8], at: usize, v: u32) -> usize
    requires { at + 5 ≤ length out.old }
    ensures { Wrote out.old at (digits_of 5 v) out.new result × (result ≡ at + 5) }
{
    put_digits(out, at, 5, v)
}

fn put_leader(out: &mut [u8], at: usize, size: u32, base: u32, l: usize, p: usize) -> usize
    requires { (l ≤ 10) × ((p ≤ 10) × (at + 24 ≤ length out.old)) }
    ensures { Wrote out.old at (leader_of size base l p) out.new result × (result ≡ at + 24) }
{
    let a = put_five(out, at, size);
    let b = copy(b" D     ", out, a);
    let c = put_five(out, b, base);
    put_sizes(out, c, l, p)
}

// Leader, directory, 1E, from the numbers in hand.
fn put_over(
    out: &mut [u8],
    at: usize,
    size: u32,
    base: u32,
    l: usize,
    p: usize,
    rows: [[u32; 3]; 8],
    n: usize,
) -> usize
    requires { (l ≤ 10) × ((p ≤ 10) × ((n ≤ 8) × (at + (25 + length (rows_bytes l p (take n rows))) ≤ length out.old))) }
    ensures { Wrote out.old at (head_over size base l p (take n rows)) out.new result }
{
    let a = put_leader(out, at, size, base, l, p);
    let b = put_rows(out, a, rows, n, l, p);
    put1(out, b, 30)
}

// Where the fields begin behind n rows with l digits of length and p of position.
fn base_with(n: usize, l: usize, p: usize) -> u32
    requires { (n ≤ 8) × ((l ≤ 10) × (p ≤ 10)) }
    ensures { (result ≡ 25 + n * row_width l p) × (result ≤ 217) }
{
    (25 + n * (4 + l + p)) as u32
}

// Where the fields begin in a record of the first n rows.
pub fn base_of(rows: [[u32; 3]; 8], n: usize) -> u32
    requires { n ≤ 8 }
    ensures { (result ≡ base_for (take n rows)) × (result ≤ 217) }
{
    let l = fewest_digits(longest_of(rows, n));
    let p = fewest_digits(farthest_of(rows, n));
    base_with(n, l, p)
}

// Leader, directory and 1E of a record of n rows with `body` bytes of fields behind them.
pub fn put_head(out: &mut [u8], at: usize, rows: [[u32; 3]; 8], n: usize, body: u32) -> usize
    requires { (n ≤ 8) × ((body ≤ 4000000000) × (at + length (head_bytes (take n rows) body) ≤ length out.old)) }
    ensures { Wrote out.old at (head_bytes (take n rows) body) out.new result }
{
    let l = fewest_digits(longest_of(rows, n));
    let p = fewest_digits(farthest_of(rows, n));
    let base = base_with(n, l, p);
    put_over(out, at, base + body, base, l, p, rows, n)
}
