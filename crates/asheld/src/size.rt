// Whether the bytes of a record are those of the held form, and how long it is.
ghost use Rattle.std.specs.Prelude.{◌+◌, ◌-◌, ◌*◌, ◌≤◌, ◌<◌, length};
ghost use Rattle.items.specs.Premises.{LaidOut};
ghost use Rattle.asheld.specs.Held.{LongTold, ClosedTold, NarrowTold, LastAt, LastEnd, HeldTold};

use iso8211::field::Record;
use itemrows::plain::is_plain;
use octets::widths::sure_at;

// Whether one of n rows of w bytes, the first at i, has a length that doesn't begin with 0.
fn some_long(s: &[u8], i: usize, n: usize, w: usize) -> bool
    requires { (5 ≤ w) × (i + n * w ≤ length s.now) }
    ensures { LongTold s.now i n w result }
{
    (0..n).any(|k| s[i + k * w + 4] != 48)
}

// Whether "04" ends the leader and 1E the directory.
fn is_closed(s: &[u8], at: usize, base: usize) -> bool
    requires { (25 ≤ base) × (at + base ≤ length s.now) }
    ensures { ClosedTold s.now at base result }
{
    if s[at + 22] != 48 {
        return false;
    }
    if s[at + 23] != 52 {
        return false;
    }
    s[at + base - 1] == 30
}

// Where the last row stands.
fn last_place(r: &Record) -> usize
    ensures { LastAt r.now.file.now r.now.at result }
{
    r.at + r.head.base - 1 - (4 + r.head.lengths + r.head.positions)
}

// Whether both digit sizes are the fewest: some length and the last position begin with another digit
// than 0.
fn is_narrow(r: &Record) -> bool
    requires { LaidOut r.now.file.now r.now.at }
    ensures { NarrowTold r.now.file.now r.now.at result }
{
    let l = r.head.lengths;
    let p = r.head.positions;
    let last = last_place(r);
    if r.file[last + 4 + l] == 48 {
        return false;
    }
    some_long(r.file, r.at + 24, r.head.count, 4 + l + p)
}

// Where the last field ends, counted from the first.
fn last_end(r: &Record) -> u32
    requires { LaidOut r.now.file.now r.now.at }
    ensures { LastEnd r.now.file.now r.now.at result }
{
    let l = r.head.lengths;
    let p = r.head.positions;
    let last = last_place(r);
    sure_at(r.file, last + 4, l) + sure_at(r.file, last + 4 + l, p)
}

// How long the record at `at` is if its bytes are those of the held form, else 0. Where this says 0,
// they may be so all the same.
pub fn held_size(r: &Record) -> u32
    requires { LaidOut r.now.file.now r.now.at }
    ensures { HeldTold r.now.file.now r.now.at result }
{
    if !is_plain(r) {
        return 0;
    }
    if !is_narrow(r) {
        return 0;
    }
    let base = r.head.base;
    if !is_closed(r.file, r.at, base) {
        return 0;
    }
    base as u32 + last_end(r)
}
