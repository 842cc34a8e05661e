// The lists of an item: their bytes counted, and copied field by field.
ghost use Rattle.std.specs.Prelude.{◌+◌, ◌≤◌, ◌<◌, ◌≡◌, length};
ghost use Rattle.octets.specs.Area.{Wrote};
ghost use Rattle.iso8211.specs.Field.{count_at, field_at};
ghost use Rattle.items.specs.Premises.{LaidOut};
ghost use Rattle.items.specs.Lists.{part_at, list_at};
ghost use Rattle.records.specs.Written.{body_of};
ghost use Rattle.itemrows.specs.Joined.{field_piece, field_pieces, Totals};

use iso8211::field::{Field, Record};
use octets::area::copy;
use octets::number::put1;
use table::kind_of;

// How many bytes field j brings to the list of kind k.
fn part_size(r: &Record, k: usize, j: usize) -> usize
    requires { LaidOut r.now.file.now r.now.at × (j < count_at r.now.file.now r.now.at) }
    ensures { (result ≡ length (part_at r.now.file.now r.now.at k j)) × (result ≤ 300000) }
{
    if kind_of(r.tag(j)) == k {
        let f = r.field(j);
        return f.length - 1;
    }
    0
}

// How many bytes the list of kind k has.
pub fn total(r: &Record, k: usize) -> u32
    requires { LaidOut r.now.file.now r.now.at }
    ensures { (result ≡ length (list_at r.now.file.now r.now.at k)) × (result ≤ 300000) }
{
    let fields = r.head.count;
    let mut n: usize = 0;
    for j in 0..fields {
        n += part_size(r, k, j);
    }
    n as u32
}

pub fn totals(r: &Record, kinds: [usize; 4]) -> [u32; 4]
    requires { LaidOut r.now.file.now r.now.at }
    ensures { Totals r.now.file.now r.now.at kinds result }
{
    let a = total(r, kinds[0]);
    let b = total(r, kinds[1]);
    let c = total(r, kinds[2]);
    let d = total(r, kinds[3]);
    [a, b, c, d]
}

// What field j, which is f, brings to the list of kind k, copied.
fn put_part(
    s: &[u8],
    at: usize,
    k: usize,
    j: usize,
    f: Field,
    out: &mut [u8],
    place: usize,
) -> usize
    requires { LaidOut s.now at × (j < count_at s.now at) × (f ≡ field_at s.now at j) × (place + length (part_at s.now at k j) ≤ length out.old) }
    ensures { Wrote out.old place (part_at s.now at k j) out.new result }
{
    if kind_of(f.tag) == k {
        let from = f.start;
        let to = from + (f.length - 1);
        return copy(&s[from..to], out, place);
    }
    place
}

// The bytes of the list of kind k, copied. Each field is read where the one before it ends, so that
// no position is.
pub fn put_list(r: &Record, k: usize, out: &mut [u8], place: usize) -> usize
    requires { LaidOut r.now.file.now r.now.at × (place + length (list_at r.now.file.now r.now.at k) ≤ length out.old) }
    ensures { Wrote out.old place (list_at r.now.file.now r.now.at k) out.new result }
{
    let fields = r.head.count;
    let mut due = r.at + r.head.base;
    let mut next = place;
    for j in 0..fields {
        let f = r.field_on(j, due);
        due = f.start + f.length;
        next = put_part(r.file, r.at, k, j, f, out, next);
    }
    next
}

// The list of kind k, t bytes, as one field with its 1E; an empty list as none.
fn put_field(r: &Record, k: usize, t: u32, out: &mut [u8], place: usize) -> usize
    requires { LaidOut r.now.file.now r.now.at × (t ≡ length (list_at r.now.file.now r.now.at k))
        × (place + length (body_of (field_piece k (list_at r.now.file.now r.now.at k))) ≤ length out.old) }
    ensures { Wrote out.old place (body_of (field_piece k (list_at r.now.file.now r.now.at k))) out.new result }
{
    if t == 0 {
        return place;
    }
    let end = put_list(r, k, out, place);
    put1(out, end, 30)
}

// The four lists, one field each.
pub fn put_lists(
    r: &Record,
    kinds: [usize; 4],
    totals: [u32; 4],
    out: &mut [u8],
    place: usize,
) -> usize
    requires { LaidOut r.now.file.now r.now.at × Totals r.now.file.now r.now.at kinds totals
        × (place + length (body_of (field_pieces kinds (list_at r.now.file.now r.now.at))) ≤ length out.old) }
    ensures { Wrote out.old place (body_of (field_pieces kinds (list_at r.now.file.now r.now.at))) out.new result }
{
    let mut next = place;
    for (k, t) in kinds.iter().zip(&totals) {
        next = put_field(r, *k, *t, out, next);
    }
    next
}
