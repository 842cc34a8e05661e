// Whether a record stands as in held form already, each list in one field and in held order, and its
// rows. Then the fields are copied as they stand.
ghost use Rattle.std.specs.Prelude.{◌+◌, ◌-◌, ◌≤◌, ◌<◌, cond, [], ◌≡◌, take, drop, get_or, eqb};
ghost use Rattle.iso8211.specs.Directory.{len, position};
ghost use Rattle.iso8211.specs.Field.{count_at, directory_at};
ghost use Rattle.itemrows.specs.Plain.{untaken, PlainTold, Ended};
ghost use Rattle.items.specs.Premises.{LaidOut};

use iso8211::directory::batch;
use iso8211::field::Record;
use table::tags;

// 1 for two tags that are the same, 0 for others.
fn same(a: u32, b: u32) -> usize
    ensures { (result ≡ cond (eqb a b) 1 0) × (result ≤ 1) }
{
    usize::from(a == b)
}

// How far the rows are taken, from row `from` on, where each of four tags in turn takes the next row
// if that is its own.
fn taken(r: &Record, from: usize, tags: [u32; 4]) -> usize
    ensures { (drop result (directory_at r.now.file.now r.now.at) ≡ untaken tags (drop from (directory_at r.now.file.now r.now.at))) × (from ≤ result) }
{
    let n = r.head.count;
    let mut j = from;
    for &tag in &tags {
        if n <= j {
            return j;
        }
        j += same(r.tag(j), tag);
    }
    j
}

// Whether the record at `at`, that of a vector or a feature, stands as in held form. Where this says
// no, it may do so all the same.
pub fn is_plain(r: &Record) -> bool
    requires { LaidOut r.now.file.now r.now.at }
    ensures { PlainTold r.now.file.now r.now.at result }
{
    let n = r.head.count;
    if 8 < n {
        return false;
    }
    if r.tag(0) != tags::FIRST {
        return false;
    }
    if r.tag(1) == tags::VRID {
        let lists = [tags::ATTV, tags::VRPT, tags::SG2D, tags::SG3D];
        return taken(r, 2, lists) == n;
    }
    let lists = [tags::ATTF, tags::NATF, tags::FFPT, tags::FSPT];
    taken(r, 3, lists) == n
}

// The rows of the record at `at`, which has at most eight.
pub fn rows_of(r: &Record) -> [[u32; 3]; 8]
    requires { (r.now.head.count ≤ 8) }
    ensures { take (count_at r.now.file.now r.now.at) result ≡ directory_at r.now.file.now r.now.at }
{
    let l = r.head.lengths;
    let p = r.head.positions;
    let n = r.head.count;
    batch(r.file, l, p, r.at + 24, n)
}

// How many bytes the fields of n rows have, each with its 1E: the last ends there.
pub fn body_of(rows: [[u32; 3]; 8], n: usize) -> u32
    requires { Ended rows n }
    ensures { (result ≡ len (get_or rows (n - 1) []) + position (get_or rows (n - 1) [])) × (result ≤ 300000) }
{
    let last = rows[n - 1];
    last[1] + last[2]
}
