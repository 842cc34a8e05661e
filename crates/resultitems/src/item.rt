// An item of the result: the cell's record, the update's, or one built of both in a lent area; what is
// seen of it, its note among it, and its code. Of a changed item they are those of the cell's record
// where nothing changes on which they stand, so that nothing is built.
ghost use Rattle.std.specs.Prelude.{◌≡◌, ◌≤◌};
ghost use Rattle.headvalues.specs.Dspm.{most_comf};
ghost use Rattle.words.specs.Words.{words_in};
ghost use Rattle.quickvectors.specs.Quick.{NamesIn};
ghost use Rattle.topology.specs.Notes.{noted_code, SeenTold};
ghost use Rattle.items.specs.Word.{rank_in};
ghost use Rattle.itemrows.specs.Plain.{Stood};
ghost use Rattle.resultitems.specs.Result.{object_of};
ghost use Rattle.resultitems.specs.Able.{Able, Rooms};
ghost use Rattle.resultitems.specs.Spared.{Classed, ControlTold};
ghost use Rattle.names.specs.Premises.{Noted};

use iso8211::field::{Record, head_of};
use items::word;
use joining::lists::total;
use lookups::starts::Starts;
use merge::At;
use rebuild::record::put_edited_record;
use table::kinds;
use topology::item_code;
use topology::note::note_at;
use topology::seen::{Seen, seen_at};

// The record of an item that the update modifies, built in `room`: where it stands.
pub fn edited(
    cell: &[u8],
    update: &[u8],
    a: At,
    join: &mut [u8],
    table: &mut [u32],
    room: &mut [u8],
) -> usize
    requires { Able cell.now update.now a × (a.change ≡ 1) × Rooms join.old table.old room.old }
    ensures { Stood room.new result (object_of cell.now update.now a)
        × Rooms join.new table.new room.new }
{
    let at = (a.word % word::MARK_WEIGHT) as usize;
    let by = (a.by % word::MARK_WEIGHT) as usize;
    put_edited_record(cell, at, update, by, join, table, room)
}

// Whether the update's record at `by`, whose class has this rank, has a control: without one it edits
// attributes alone, on which no code stands.
fn has_control(update: &[u8], by: usize, rank: u64) -> bool
    requires { Classed update.now by rank }
    ensures { ControlTold update.now by result }
{
    let h = head_of(update, by);
    let r = Record {
        file: update,
        at: by,
        head: h,
    };
    if rank == 3 {
        if total(&r, kinds::FFPC) != 0 {
            return true;
        }
        return total(&r, kinds::FSPC) != 0;
    }
    if total(&r, kinds::VRPC) != 0 {
        return true;
    }
    total(&r, kinds::SGCC) != 0
}

// What is seen of an item that the update modifies, whose class has this rank: what the cell's record
// shows, unless a control edits one of a vector's lists.
fn changed_seen(
    cell: &[u8],
    update: &[u8],
    a: At,
    rank: u64,
    comf: u32,
    work: &[u8],
    m: usize,
    nodes: usize,
    join: &mut [u8],
    table: &mut [u32],
    room: &mut [u8],
) -> Seen
    requires { Able cell.now update.now a × (a.change ≡ 1) × (rank ≡ rank_in a.word) × NamesIn work.now m × (comf ≤ most_comf)
        × Rooms join.old table.old room.old }
    ensures { SeenTold comf (words_in work.now 0 m) (object_of cell.now update.now a) result
        × Rooms join.new table.new room.new }
{
    let at = (a.word % word::MARK_WEIGHT) as usize;
    if rank == 3 {
        return Seen {
            note: note_at(cell, at, rank),
            clear: false,
        };
    }
    let by = (a.by % word::MARK_WEIGHT) as usize;
    if !has_control(update, by, rank) {
        return seen_at(cell, at, rank, comf, work, m, nodes);
    }
    let place = edited(cell, update, a, join, table, room);
    seen_at(room, place, rank, comf, work, m, nodes)
}

// The note of an item of the result, and whether it is known to have no fault, by the words of all m;
// `nodes` is where those of connected nodes may begin.
pub fn seen_of(
    cell: &[u8],
    update: &[u8],
    a: At,
    comf: u32,
    work: &[u8],
    m: usize,
    nodes: usize,
    join: &mut [u8],
    table: &mut [u32],
    room: &mut [u8],
) -> Seen
    requires { Able cell.now update.now a × NamesIn work.now m × (comf ≤ most_comf) × Rooms join.old table.old room.old }
    ensures { SeenTold comf (words_in work.now 0 m) (object_of cell.now update.now a) result
        × Rooms join.new table.new room.new }
{
    let rank = a.word / word::RANK_WEIGHT;
    if a.change == 1 {
        return changed_seen(
            cell, update, a, rank, comf, work, m, nodes, join, table, room,
        );
    }
    let at = (a.word % word::MARK_WEIGHT) as usize;
    if a.word / word::MARK_WEIGHT % 2 == 1 {
        return seen_at(update, at, rank, comf, work, m, nodes);
    }
    seen_at(cell, at, rank, comf, work, m, nodes)
}

// The code of an item that the update modifies: that of the cell's record, unless a control edits one
// of its lists.
fn changed_code(
    cell: &[u8],
    update: &[u8],
    a: At,
    comf: u32,
    work: &[u8],
    m: usize,
    v: usize,
    starts: Starts,
    join: &mut [u8],
    table: &mut [u32],
    room: &mut [u8],
) -> u32
    requires { Able cell.now update.now a × (a.change ≡ 1) × Noted work.now m v × (comf ≤ most_comf) × Rooms join.old table.old room.old }
    ensures { (result ≡ noted_code comf work.now m v (object_of cell.now update.now a))
        × Rooms join.new table.new room.new }
{
    let at = (a.word % word::MARK_WEIGHT) as usize;
    let by = (a.by % word::MARK_WEIGHT) as usize;
    if !has_control(update, by, a.word / word::RANK_WEIGHT) {
        return item_code(cell, at, comf, work, m, v, starts);
    }
    let place = edited(cell, update, a, join, table, room);
    item_code(room, place, comf, work, m, v, starts)
}

// The code of an item, by the words and notes of all m, of which v are vectors; `starts` is where the
// words of each class may begin.
pub fn code_of(
    cell: &[u8],
    update: &[u8],
    a: At,
    comf: u32,
    work: &[u8],
    m: usize,
    v: usize,
    starts: Starts,
    join: &mut [u8],
    table: &mut [u32],
    room: &mut [u8],
) -> u32
    requires { Able cell.now update.now a × Noted work.now m v × (comf ≤ most_comf) × Rooms join.old table.old room.old }
    ensures { (result ≡ noted_code comf work.now m v (object_of cell.now update.now a))
        × Rooms join.new table.new room.new }
{
    if a.change == 1 {
        return changed_code(cell, update, a, comf, work, m, v, starts, join, table, room);
    }
    let at = (a.word % word::MARK_WEIGHT) as usize;
    if a.word / word::MARK_WEIGHT % 2 == 1 {
        return item_code(update, at, comf, work, m, v, starts);
    }
    item_code(cell, at, comf, work, m, v, starts)
}
