// The front of a record: nearly every one begins with a 0001 of three bytes, and goes on with a VRID of
// nine, or with a FRID of thirteen and a FOID of nine. Behind a VRID most have an SG2D of one pair, as
// nodes do, or a VRPT of two pointers, as edges do. The numbers of these rows are compared here, not
// computed. Told one way: where the rows are others, the walk begins with them.
ghost use Rattle.std.specs.Prelude.{ℕ, ◌+◌, ◌≤◌, Bool, ◌≡◌, length};
ghost use Rattle.answers.specs.Codes.{most_bytes};
ghost use Rattle.recordfine.specs.Premises.{OpenAt};
ghost use Rattle.recordfine.specs.Walk.{RowIn, SaysTold, RowIs, MarkedTold, FrontTold, Behind, past_first, past_vrid};

use crate::open::Open;
use fieldfine::single::{frid_field, vrid_field};
use iso8211::directory::tag_at;
use layout::place::START;
use octets::number::{get1, get2};
use table::{kinds, tags};

// Where the walk over a record stands: the row that is next, the kind of the field before it, the stamp
// of a list that this is, and where the next field is due.
#[derive(Drop)]
pub struct Next {
    pub row: usize,
    pub prev: usize,
    pub stamp: u32,
    pub due: usize,
}

// Whether the n digits from i on, in the widths that most records have, say v, which has two digits at
// most.
fn says(s: &[u8], i: usize, n: usize, v: usize) -> bool
    requires { (v ≤ 99) × (n ≤ 9) × (i + n ≤ length s.now) }
    ensures { SaysTold s.now i n v result }
{
    let two = 12336 + v / 10 + 256 * (v % 10);
    if n == 2 {
        return get2(s, i) as usize == two;
    }
    if n == 3 {
        if get1(s, i) != 48 {
            return false;
        }
        return get2(s, i + 1) as usize == two;
    }
    if n != 1 {
        return false;
    }
    if 9 < v {
        return false;
    }
    get1(s, i) as usize == 48 + v
}

// Whether the row at i is that of a field of this tag and length, due at `due`, and the field is framed
// well.
fn row_is(s: &[u8], i: usize, h: Open, tag: u32, due: usize, long: usize) -> bool
    requires { RowIn s.now i h × (due ≤ 99) × (1 ≤ long) × (long ≤ 99) }
    ensures { RowIs s.now i h tag due long result }
{
    if tag_at(s, i) != tag {
        return false;
    }
    if !says(s, i + 4, h.lengths, long) {
        return false;
    }
    if !says(s, i + 4 + h.lengths, h.positions, due) {
        return false;
    }
    if h.end - h.body < due + long {
        return false;
    }
    s[h.body + (due + long) - 1] == 30
}

// Whether the row at i is that of a field of kind k with this tag and length, due at `due`, which is
// framed well and declared.
fn marked(
    s: &[u8],
    i: usize,
    h: Open,
    marks: &[u8],
    tag: u32,
    due: usize,
    long: usize,
    k: usize,
) -> bool
    requires { RowIn s.now i h × (length marks.now ≡ 20) × (due ≤ 99) × (1 ≤ long) × (long ≤ 99) × (k ≤ 19) }
    ensures { MarkedTold marks.now s.now i h tag due long k result }
{
    if !row_is(s, i, h, tag, due, long) {
        return false;
    }
    marks[k] == 1
}

// Whether the row at i is that of a VRID behind its 0001, and the field is fine.
fn vrid_fine(s: &[u8], i: usize, h: Open, marks: &[u8], update: bool, stage: usize) -> bool
    requires { RowIn s.now i h × (length marks.now ≡ 20) }
    ensures { FrontTold update stage marks.now s.now i h 18 1448233284 3 9 3 result }
{
    if !row_is(s, i, h, tags::VRID, 3, 9) {
        return false;
    }
    let from = h.body + 3;
    let to = from + 8;
    vrid_field(&s[from..to], marks, kinds::FIRST, stage, update) != START
}

// Whether the row at i is that of a FRID behind its 0001, and the field is fine.
fn frid_fine(s: &[u8], i: usize, h: Open, marks: &[u8], update: bool, stage: usize) -> bool
    requires { RowIn s.now i h × (length marks.now ≡ 20) }
    ensures { FrontTold update stage marks.now s.now i h 18 1179797828 3 13 10 result }
{
    if !row_is(s, i, h, tags::FRID, 3, 13) {
        return false;
    }
    let from = h.body + 3;
    let to = from + 12;
    frid_field(&s[from..to], marks, kinds::FIRST, stage, update) != START
}

// Where the walk over the record at `at`, its 0001 passed, stands behind a FRID and a FOID. A third row
// need not be there.
fn feature_front(s: &[u8], at: usize, h: Open, marks: &[u8], update: bool, stage: usize) -> Next
    requires { OpenAt s.now at h × (length s.now ≤ most_bytes) × (length marks.now ≡ 20) × Behind update stage marks.now s.now at h (past_first at h) }
    ensures { Behind update stage marks.now s.now at h result }
{
    let w = 4 + h.lengths + h.positions;
    let i = at + 24;
    let j = i + w;
    if !frid_fine(s, j, h, marks, update, stage) {
        return Next {
            row: j,
            prev: kinds::FIRST,
            stamp: i as u32,
            due: 3,
        };
    }
    let k = j + w;
    let n = Next {
        row: k,
        prev: kinds::FRID,
        stamp: j as u32,
        due: 16,
    };
    if h.body <= k + w {
        return n;
    }
    if !marked(s, k, h, marks, tags::FOID, 16, 9, kinds::FOID) {
        return n;
    }
    Next {
        row: k + w,
        prev: kinds::FOID,
        stamp: k as u32,
        due: 25,
    }
}

// Where the walk over the record at `at`, its VRID passed, stands behind an SG2D of one pair or a VRPT of
// two pointers. A third row need not be there.
fn vector_front(s: &[u8], at: usize, h: Open, marks: &[u8]) -> Next
    requires { OpenAt s.now at h × (length s.now ≤ most_bytes) × (length marks.now ≡ 20) }
    ensures { (update : Bool) (stage : ℕ) → Behind update stage marks.now s.now at h (past_vrid at h)
        → Behind update stage marks.now s.now at h result }
{
    let w = 4 + h.lengths + h.positions;
    let j = at + 24 + w;
    let k = j + w;
    let n = Next {
        row: k,
        prev: kinds::VRID,
        stamp: j as u32,
        due: 12,
    };
    if h.body <= k + w {
        return n;
    }
    if marked(s, k, h, marks, tags::SG2D, 12, 9, kinds::SG2D) {
        return Next {
            row: k + w,
            prev: kinds::SG2D,
            stamp: k as u32,
            due: 21,
        };
    }
    if marked(s, k, h, marks, tags::VRPT, 12, 19, kinds::VRPT) {
        return Next {
            row: k + w,
            prev: kinds::VRPT,
            stamp: k as u32,
            due: 31,
        };
    }
    n
}

// Where the walk over the record at `at` stands behind its front.
pub fn front(s: &[u8], at: usize, h: Open, marks: &[u8], update: bool, stage: usize) -> Next
    requires { OpenAt s.now at h × (length s.now ≤ most_bytes) × (length marks.now ≡ 20) }
    ensures { Behind update stage marks.now s.now at h result }
{
    let i = at + 24;
    if !marked(s, i, h, marks, tags::FIRST, 0, 3, kinds::FIRST) {
        return Next {
            row: i,
            prev: START,
            stamp: at as u32,
            due: 0,
        };
    }
    let w = 4 + h.lengths + h.positions;
    let j = i + w;
    if !vrid_fine(s, j, h, marks, update, stage) {
        return feature_front(s, at, h, marks, update, stage);
    }
    vector_front(s, at, h, marks)
}
