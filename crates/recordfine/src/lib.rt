// One walk over a record that decides its framing, its layout and its values at once, on the good
// path only. It promises the crates above that where it says "fine", `iso8211`, `layout` and
// `fieldvalue` find no fault in the record; where it says no, nothing is promised, and their general
// code decides. Each row of the directory, each field and each byte of a text is read once.
#![tactic(auto)]

pub mod front;
pub mod open;
pub mod row;

ghost use Rattle.std.specs.Prelude.{◌+◌, ◌-◌, ◌≤◌, ◌≡◌, length, take, drop};
ghost use Rattle.answers.specs.Codes.{most_bytes};
ghost use Rattle.octets.specs.Number.{byte_at};
ghost use Rattle.table.specs.Table.{kind_of};
ghost use Rattle.fieldfine.specs.Told.{content_in};
ghost use Rattle.fieldfine.specs.Place.{FieldTold};
ghost use Rattle.recordfine.specs.Told.{FineTold};
ghost use Rattle.recordfine.specs.Premises.{OpenAt, FieldsTold, WholeTold, IdentifiedBy};

use crate::front::front;
use crate::open::{Open, opened};
use crate::row::row_fine;
use fieldfine::field_fine;
use fieldfine::place::stamp_of;
use iso8211::directory::tag_at;
use layout::place::{START, may_end};
use table::{kind_of, kinds, tags};

// What one walk over a record finds: where the record ends (0: it isn't known to be good), where its
// identifier field starts, and of which kind that is.
#[derive(Drop)]
pub struct Fine {
    pub end: usize,
    pub id: usize,
    pub kind: usize,
}

// The field of this tag, its `long` bytes at `from`: its kind where it is fine, else START.
fn field_at(
    s: &[u8],
    from: usize,
    long: usize,
    tag: u32,
    prev: usize,
    marks: &[u8],
    update: bool,
    stage: usize,
    aall: u32,
    nall: u32,
    table: &mut [u32],
    stamp: u32,
    fresh: u32,
) -> usize
    requires { (from + long ≤ length s.now) × (1 ≤ long) × (byte_at s.now (from + long - 1) ≡ 30) × (length marks.now ≡ 20) × (length table.old ≡ 65536) }
    ensures { FieldTold update stage marks.now aall nall prev tag (content_in (take (from + long - from) (drop from s.now)))
        stamp fresh table.old table.new result }
{
    let to = from + long;
    field_fine(
        &s[from..to],
        tag,
        prev,
        marks,
        update,
        stage,
        aall,
        nall,
        table,
        stamp,
        fresh,
    )
}

// Whether fields up to `due` are all of the `size` bytes, and one of kind `prev` may be the last.
fn is_whole(due: usize, size: usize, prev: usize) -> bool
    ensures { WholeTold due size prev result }
{
    if due != size {
        return false;
    }
    may_end(prev)
}

// Whether the fields of the record at `at`, whose leader says h, are fine. A list of attributes has the
// place of the row with which it begins as its stamp, which no list before it had.
// Its loop is a while: `step_by` would ask at each row whether it is the first.
fn fields_fine(
    s: &[u8],
    at: usize,
    h: Open,
    marks: &[u8],
    update: bool,
    stage: usize,
    aall: u32,
    nall: u32,
    table: &mut [u32],
) -> bool
    requires { OpenAt s.now at h × (length s.now ≤ most_bytes) × (length marks.now ≡ 20) × (length table.old ≡ 65536) }
    ensures { FieldsTold update stage marks.now aall nall s.now at table.old table.new result }
{
    let l = h.lengths;
    let p = h.positions;
    let body = h.body;
    let size = h.end - body;
    let stop = body - 1;
    let next = front(s, at, h, marks, update, stage);
    let mut prev = next.prev;
    let mut stamp = next.stamp;
    let mut due = next.due;
    let mut i = next.row;
    while i < stop {
        let long = row_fine(s, i, l, p, body, size, due);
        if long == 0 {
            return false;
        }
        let fresh = i as u32;
        let k = field_at(
            s,
            body + due,
            long,
            tag_at(s, i),
            prev,
            marks,
            update,
            stage,
            aall,
            nall,
            table,
            stamp,
            fresh,
        );
        if k == START {
            return false;
        }
        stamp = stamp_of(prev == k, stamp, fresh);
        prev = k;
        due += long;
        i += 4 + l + p;
    }
    is_whole(due, size, prev)
}

// The kind of an identifier field by its tag.
fn identifier_kind(tag: u32) -> usize
    ensures { result ≡ kind_of tag }
{
    if tag == tags::VRID {
        return kinds::VRID;
    }
    if tag == tags::FRID {
        return kinds::FRID;
    }
    kind_of(tag)
}

// What is found of a record whose fields are fine: behind its 0001, which has three bytes, stands its
// identifier field.
fn identified(s: &[u8], at: usize, h: Open) -> Fine
    requires { OpenAt s.now at h }
    ensures { IdentifiedBy s.now at h result }
{
    let i = at + 24 + (4 + h.lengths + h.positions);
    Fine {
        end: h.end,
        id: h.body + 3,
        kind: identifier_kind(tag_at(s, i)),
    }
}

// The record at `at`, in one walk.
pub fn record_fine(
    s: &[u8],
    at: usize,
    marks: &[u8],
    update: bool,
    stage: usize,
    aall: u32,
    nall: u32,
    table: &mut [u32],
) -> Fine
    requires { (at ≤ length s.now) × (length s.now ≤ most_bytes) × (length marks.now ≡ 20) × (length table.old ≡ 65536) }
    ensures { FineTold update stage marks.now aall nall s.now at table.old table.new result }
{
    let h = opened(s, at);
    if h.end == 0 {
        return Fine {
            end: 0,
            id: 0,
            kind: 0,
        };
    }
    if !fields_fine(s, at, h, marks, update, stage, aall, nall, table) {
        return Fine {
            end: 0,
            id: 0,
            kind: 0,
        };
    }
    identified(s, at, h)
}
