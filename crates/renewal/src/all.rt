// All items of the result, in the order of the walk: how long their records are, and their bytes.
ghost use Rattle.std.specs.Prelude.{◌+◌, ◌≤◌, length};
ghost use Rattle.octets.specs.Area.{Wrote};
ghost use Rattle.merge.specs.Places.{places_of};
ghost use Rattle.resultitems.specs.Able.{Rooms};
ghost use Rattle.resultitems.specs.Items.{Items, AllSized, objects_in, written_by};
ghost use Rattle.renewal.specs.Same.{Told, AllSame};

use crate::item::{put_at, size_at};
use merge::walk::item_at;
use writing::all::{Measured, Sizes};

// The sizes of the records of all items: for the limits of the held form, and for the room that
// `put_items` asks for; and whether those of the items that aren't changed are known to be the held form's.
pub fn measure(
    cell: &[u8],
    update: &[u8],
    work: &[u8],
    end: usize,
    count: usize,
    edits: usize,
    join: &mut [u8],
    table: &mut [u32],
    room: &mut [u8],
) -> Measured
    requires { Items cell.now update.now work.now end count edits × Rooms join.old table.old room.old }
    ensures all_sized { AllSized (objects_in cell.now update.now work.now end count edits) result.sizes }
    ensures told { Told result.same (AllSame cell.now update.now (places_of work.now end count edits)) }
    ensures rooms { Rooms join.new table.new room.new }
{
    let mut sum: usize = 0;
    let mut most: u32 = 0;
    let mut same = true;
    let mut j: usize = 0;
    for i in 0..count {
        let a = item_at(work, end, count, edits, i, j);
        j += a.change;
        let one = size_at(cell, update, a, join, table, room);
        let size = one.size;
        sum += size as usize;
        most = most.max(size);
        same &= one.same;
    }
    let sizes = Sizes { sum, most };
    Measured { sizes, same }
}

// The records of all items, one behind the other from `place` on; the answer is where they end.
// Three records stand before them. `same`: whether the records of the items that aren't changed are
// known to be the held form's.
pub fn put_items(
    cell: &[u8],
    update: &[u8],
    work: &[u8],
    end: usize,
    count: usize,
    edits: usize,
    same: bool,
    join: &mut [u8],
    table: &mut [u32],
    room: &mut [u8],
    out: &mut [u8],
    place: usize,
) -> usize
    requires { Items cell.now update.now work.now end count edits
        × Told same (AllSame cell.now update.now (places_of work.now end count edits)) × Rooms join.old table.old room.old
        × (place + length (written_by 3 (objects_in cell.now update.now work.now end count edits)) ≤ length out.old) }
    ensures wrote { Wrote out.old place (written_by 3 (objects_in cell.now update.now work.now end count edits))
        out.new result }
    ensures rooms { Rooms join.new table.new room.new }
{
    let mut next = place;
    let mut j: usize = 0;
    for i in 0..count {
        let a = item_at(work, end, count, edits, i, j);
        let number = (i + 3) as u32;
        j += a.change;
        next = put_at(cell, update, a, same, join, table, room, out, next, number);
    }
    next
}
