// The record of an item of the result in held form: its size, and its bytes. It stands in the cell or
// in the update; that of a changed item is built in a lent area first. One that is known to be the held
// form's already is copied without a second test.
ghost use Rattle.std.specs.Prelude.{◌+◌, ◌≤◌, length};
ghost use Rattle.octets.specs.Area.{Wrote};
ghost use Rattle.records.specs.Written.{record_bytes, size_of};
ghost use Rattle.items.specs.Item.{item_at};
ghost use Rattle.itemfields.specs.Fields.{item_pieces};
ghost use Rattle.itemrows.specs.Plain.{Writable};
ghost use Rattle.asheld.specs.Held.{Same};
ghost use Rattle.resultitems.specs.Result.{object_of};
ghost use Rattle.resultitems.specs.Able.{Able, Rooms};
ghost use Rattle.resultitems.specs.Items.{ObjectSized};
ghost use Rattle.renewal.specs.Same.{Told, SameAt};

use items::word;
use merge::At;
use resultitems::item::edited;
use writing::item::{Known, known_size, put_copy, put_item, size_of};

// How long the record of an item is, and whether that of an item that isn't changed is known to be the
// held form's; of a changed one, whose record is built anew, `same` says nothing.
pub fn size_at(
    cell: &[u8],
    update: &[u8],
    a: At,
    join: &mut [u8],
    table: &mut [u32],
    room: &mut [u8],
) -> Known
    requires { Able cell.now update.now a × Rooms join.old table.old room.old }
    ensures object_sized { ObjectSized (object_of cell.now update.now a) result.size }
    ensures told { Told result.same (SameAt cell.now update.now a) }
    ensures rooms { Rooms join.new table.new room.new }
{
    if a.change == 1 {
        let built = edited(cell, update, a, join, table, room);
        return Known {
            size: size_of(room, built),
            same: true,
        };
    }
    let at = (a.word % word::MARK_WEIGHT) as usize;
    if a.word / word::MARK_WEIGHT % 2 == 1 {
        return known_size(update, at);
    }
    known_size(cell, at)
}

// The record of the item at `at` of one file, copied whole where it is known to be the held form's.
fn put_kept(s: &[u8], at: usize, same: bool, out: &mut [u8], place: usize, number: u32) -> usize
    requires { Writable s.now at × Told same (Same s.now at) × (place + size_of (item_pieces number (item_at s.now at)) ≤ length out.old) }
    ensures { Wrote out.old place (record_bytes (item_pieces number (item_at s.now at))) out.new result }
{
    if same {
        return put_copy(s, at, out, place, number);
    }
    put_item(s, at, out, place, number)
}

// The record of an item, with this running number; `same`: whether that of an item that isn't changed is
// known to be the held form's.
pub fn put_at(
    cell: &[u8],
    update: &[u8],
    a: At,
    same: bool,
    join: &mut [u8],
    table: &mut [u32],
    room: &mut [u8],
    out: &mut [u8],
    place: usize,
    number: u32,
) -> usize
    requires { Able cell.now update.now a × Told same (SameAt cell.now update.now a) × Rooms join.old table.old room.old
        × (place + size_of (item_pieces number (object_of cell.now update.now a)) ≤ length out.old) }
    ensures wrote { Wrote out.old place (record_bytes (item_pieces number (object_of cell.now update.now a))) out.new result }
    ensures rooms { Rooms join.new table.new room.new }
{
    if a.change == 1 {
        let built = edited(cell, update, a, join, table, room);
        return put_item(room, built, out, place, number);
    }
    let at = (a.word % word::MARK_WEIGHT) as usize;
    if a.word / word::MARK_WEIGHT % 2 == 1 {
        return put_kept(update, at, same, out, place, number);
    }
    put_kept(cell, at, same, out, place, number)
}
