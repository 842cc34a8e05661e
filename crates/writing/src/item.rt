// The record of an item of a cell in held form: its size, and its bytes. A record whose bytes are those of
// the held form already is copied as it stands; one whose lists stand as in held form takes one walk over its
// directory, and its fields are copied as they stand.
ghost use Rattle.std.specs.Prelude.{◌+◌, ◌≤◌, length};
ghost use Rattle.octets.specs.Area.{Wrote};
ghost use Rattle.iso8211.specs.Premises.{HeadOf};
ghost use Rattle.records.specs.Written.{record_bytes, size_of};
ghost use Rattle.items.specs.Item.{item_at};
ghost use Rattle.itemfields.specs.Fields.{item_pieces};
ghost use Rattle.itemrows.specs.Plain.{Writable, ItemSized};
ghost use Rattle.asheld.specs.Held.{Same};
ghost use Rattle.writing.specs.All.{ItemKnown};

use crate::joined::{put_joined, size_joined};
use asheld::front::is_front;
use asheld::size::held_size;
use asheld::write::{put_held, put_same};
use iso8211::field::{Head, Record, head_of};
use itemrows::lead::put_lead;
use itemrows::plain::{body_of, is_plain, rows_of};
use records::head::{base_of, put_head};

// How long a record is in held form, and whether it is known to be that, byte by byte, but for its running
// number.
#[derive(Drop)]
pub struct Known {
    pub size: u32,
    pub same: bool,
}

// How long the record of any item is. It takes file, place and head apart: that a file's bytes are below 256
// is known to a proof where the file itself is lent.
fn size_any(s: &[u8], at: usize, h: Head) -> u32
    requires { Writable s.now at × HeadOf s.now at h }
    ensures { ItemSized s.now at result }
{
    let r = Record {
        file: s,
        at,
        head: h,
    };
    if !is_plain(&r) {
        return size_joined(s, at, h);
    }
    let n = h.count;
    let rows = rows_of(&r);
    base_of(rows, n) + body_of(rows, n)
}

// How long the record of the item at `at` is in held form.
pub fn size_of(s: &[u8], at: usize) -> u32
    requires { Writable s.now at }
    ensures { ItemSized s.now at result }
{
    let r = Record {
        file: s,
        at,
        head: head_of(s, at),
    };
    let size = held_size(&r);
    if size == 0 {
        return size_any(s, at, r.head);
    }
    size
}

// The same, and whether the record is the held form's already.
pub fn known_size(s: &[u8], at: usize) -> Known
    requires { Writable s.now at }
    ensures { ItemKnown s.now at result }
{
    let r = Record {
        file: s,
        at,
        head: head_of(s, at),
    };
    let size = held_size(&r);
    if size == 0 {
        return Known {
            size: size_any(s, at, r.head),
            same: false,
        };
    }
    Known {
        size,
        same: is_front(s, at, size),
    }
}

// The record of any item, as `size_any` takes it.
fn put_any(s: &[u8], at: usize, h: Head, out: &mut [u8], place: usize, number: u32) -> usize
    requires { Writable s.now at × HeadOf s.now at h × (place + size_of (item_pieces number (item_at s.now at)) ≤ length out.old) }
    ensures { Wrote out.old place (record_bytes (item_pieces number (item_at s.now at))) out.new result }
{
    let r = Record {
        file: s,
        at,
        head: h,
    };
    if !is_plain(&r) {
        return put_joined(s, at, h, out, place, number);
    }
    let n = h.count;
    let rows = rows_of(&r);
    let body = body_of(rows, n);
    let a = put_head(out, place, rows, n, body);
    put_lead(s, at + h.base + 3, body as usize - 3, out, a, number)
}

// The record of the item at `at` that is known to be the held form's, copied.
pub fn put_copy(s: &[u8], at: usize, out: &mut [u8], place: usize, number: u32) -> usize
    requires { Writable s.now at × Same s.now at × (place + size_of (item_pieces number (item_at s.now at)) ≤ length out.old) }
    ensures { Wrote out.old place (record_bytes (item_pieces number (item_at s.now at))) out.new result }
{
    put_same(s, at, out, place, number)
}

// The record of the item at `at`, in held form.
pub fn put_item(s: &[u8], at: usize, out: &mut [u8], place: usize, number: u32) -> usize
    requires { Writable s.now at × (place + size_of (item_pieces number (item_at s.now at)) ≤ length out.old) }
    ensures { Wrote out.old place (record_bytes (item_pieces number (item_at s.now at))) out.new result }
{
    let r = Record {
        file: s,
        at,
        head: head_of(s, at),
    };
    let size = held_size(&r);
    if size == 0 {
        return put_any(s, at, r.head, out, place, number);
    }
    if is_front(s, at, size) {
        return put_copy(s, at, out, place, number);
    }
    let base = r.head.base;
    put_held(s, at, base, size, out, place, number)
}
