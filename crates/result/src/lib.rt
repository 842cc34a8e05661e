// Topology of an update's result, codes 17 to 19, before anything of it is written: `result_fault`, its
// items in held order by the words that `merge` wove, each judged by `resultitems` where its record stands.
#![tactic(auto)]

ghost use Rattle.std.specs.Prelude.{◌+◌, ◌*◌, ◌≤◌, ◌≡◌, length};
ghost use Rattle.headvalues.specs.Dspm.{most_comf};
ghost use Rattle.words.specs.Words.{words_in};
ghost use Rattle.names.specs.Premises.{Noted};
ghost use Rattle.quickvectors.specs.Quick.{NamesIn};
ghost use Rattle.answers.specs.Answer.{outcome};
ghost use Rattle.topology.specs.Topology.{fault_from, topology_of};
ghost use Rattle.topology.specs.Notes.{notes_for, noted_code, Beside, NotesPut, Prepared};
ghost use Rattle.merge.specs.Places.{places_of};
ghost use Rattle.resultitems.specs.Result.{object_of, result_items};
ghost use Rattle.resultitems.specs.Able.{Able, Laid, Rooms};
ghost use Rattle.result.specs.Cleared.{NotePut, ClearTo, ClearWith};

use answers::Refusal;
use answers::refusal::refuse;
use lookups::starts::starts_of;
use merge::At;
use merge::walk::item_at;
use resultitems::item::{code_of, seen_of};
use topology::note::sort_notes;
use words::put;

// How many items at the front are known to have no fault, and how many of these are changed.
#[derive(Drop)]
pub struct Clear {
    pub items: usize,
    pub edits: usize,
}

// With the item `before`, behind which come item i and, of the changed ones, number j: it counts if all
// before it do.
fn clear_with(clear: Clear, before: usize, i: usize, j: usize, good: bool) -> Clear
    ensures { ClearWith clear before i j good result }
{
    if good && clear.items == before {
        return Clear { items: i, edits: j };
    }
    clear
}

// The note of an item of the result, put at `place`; the answer is whether it is known to have no fault.
fn put_note(
    cell: &[u8],
    update: &[u8],
    a: At,
    comf: u32,
    work: &mut [u8],
    count: usize,
    place: usize,
    nodes: usize,
    join: &mut [u8],
    table: &mut [u32],
    room: &mut [u8],
) -> bool
    requires { Able cell.now update.now a × NamesIn work.old count × (8 * place + 8 ≤ length work.old) × (comf ≤ most_comf) × Rooms join.old table.old room.old }
    ensures { NotePut comf (object_of cell.now update.now a) work.old count place work.new result
        × Rooms join.new table.new room.new }
{
    let seen = seen_of(cell, update, a, comf, work, count, nodes, join, table, room);
    put(work, place, seen.note);
    seen.clear
}

// The notes of all items, behind their words; the answer is how many at the front are seen to have no
// fault on the way.
fn put_notes(
    cell: &[u8],
    update: &[u8],
    comf: u32,
    work: &mut [u8],
    end: usize,
    count: usize,
    edits: usize,
    nodes: usize,
    join: &mut [u8],
    table: &mut [u32],
    room: &mut [u8],
) -> Clear
    requires { Laid cell.now update.now work.old end count edits × (comf ≤ most_comf) × Rooms join.old table.old room.old }
    ensures { NotesPut (notes_for (result_items cell.now update.now work.old end count edits)) work.old count work.new
        × ClearTo comf cell.now update.now work.old end count edits result
        × Rooms join.new table.new room.new }
{
    let mut clear = Clear { items: 0, edits: 0 };
    let mut j: usize = 0;
    for i in 0..count {
        let a = item_at(work, end, count, edits, i, j);
        let place = count + i;
        j += a.change;
        let good = put_note(
            cell, update, a, comf, work, count, place, nodes, join, table, room,
        );
        clear = clear_with(clear, i, i + 1, j, good);
    }
    clear
}

// The number of vectors, and how many items are clear.
#[derive(Drop)]
pub struct Ready {
    pub vectors: usize,
    pub clear: Clear,
}

// The same, with the notes of the features in order.
fn prepare(
    cell: &[u8],
    update: &[u8],
    comf: u32,
    work: &mut [u8],
    end: usize,
    count: usize,
    edits: usize,
    join: &mut [u8],
    table: &mut [u32],
    room: &mut [u8],
) -> Ready
    requires { Laid cell.now update.now work.old end count edits × (comf ≤ most_comf) × Rooms join.old table.old room.old }
    ensures { Prepared (notes_for (result_items cell.now update.now work.old end count edits)) (words_in work.old 0 count) count
        work.new result.vectors
        × Beside work.old count work.new
        × ClearTo comf cell.now update.now work.old end count edits result.clear
        × Rooms join.new table.new room.new }
{
    let starts = starts_of(work, count);
    let nodes = starts.connected;
    let clear = put_notes(
        cell, update, comf, work, end, count, edits, nodes, join, table, room,
    );
    Ready {
        vectors: sort_notes(work, count),
        clear,
    }
}

// The first item that has a code, by words and notes, behind those that are clear.
fn items_fault(
    cell: &[u8],
    update: &[u8],
    comf: u32,
    work: &[u8],
    end: usize,
    count: usize,
    edits: usize,
    v: usize,
    clear: Clear,
    join: &mut [u8],
    table: &mut [u32],
    room: &mut [u8],
) -> Result<(), Refusal>
    requires { Laid cell.now update.now work.now end count edits × Noted work.now count v × (comf ≤ most_comf)
        × ClearTo comf cell.now update.now work.now end count edits clear × Rooms join.old table.old room.old }
    ensures { (result ≡ outcome (fault_from (noted_code comf work.now count v) 3 (result_items cell.now update.now work.now end count edits)))
        × Rooms join.new table.new room.new }
{
    let starts = starts_of(work, count);
    let mut j = clear.edits;
    for i in clear.items..count {
        let a = item_at(work, end, count, edits, i, j);
        let code = code_of(
            cell, update, a, comf, work, count, v, starts, join, table, room,
        );
        if code != 0 {
            return Err(refuse(code, 3 + i, 0));
        }
        j += a.change;
    }
    Ok(())
}

// The topology of the result of `count` items, of which the update modifies `edits`. The words stay
// where they are, and so do the modifies, which stand before word `end`.
pub fn result_fault(
    cell: &[u8],
    update: &[u8],
    comf: u32,
    work: &mut [u8],
    end: usize,
    count: usize,
    edits: usize,
    join: &mut [u8],
    table: &mut [u32],
    room: &mut [u8],
) -> Result<(), Refusal>
    requires { Laid cell.now update.now work.old end count edits × (comf ≤ most_comf) × Rooms join.old table.old room.old }
    ensures value { result ≡ outcome (topology_of comf (result_items cell.now update.now work.old end count edits)) }
    ensures edits_unchanged { places_of work.new end count edits ≡ places_of work.old end count edits }
    ensures rooms { Rooms join.new table.new room.new }
{
    let ready = prepare(
        cell, update, comf, work, end, count, edits, join, table, room,
    );
    items_fault(
        cell,
        update,
        comf,
        work,
        end,
        count,
        edits,
        ready.vectors,
        ready.clear,
        join,
        table,
        room,
    )
}
