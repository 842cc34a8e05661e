// The result whole: how long its held form is and whether it keeps its limits, decided before a byte
// is written, and its bytes.
ghost use Rattle.std.specs.Prelude.{◌≤◌, length};
ghost use Rattle.octets.specs.Area.{Wrote};
ghost use Rattle.merge.specs.Places.{places_of};
ghost use Rattle.held.specs.Held.{held_of};
ghost use Rattle.reissue.specs.Plan.{Planned};
ghost use Rattle.resultitems.specs.Able.{Rooms};
ghost use Rattle.resultitems.specs.Items.{objects_in};
ghost use Rattle.renewal.specs.Renewed.{renewed, front_of, Renewing};
ghost use Rattle.renewal.specs.Same.{Told, AllSame};

use crate::all::{measure, put_items};
use reissue::plan::{Plan, Scheme, within_limits};
use resultcounts::tally::tally_items;
use revisedfront::front::{front_sizes, fronts_of, put_front};

// The plan of a result of `count` items, and whether the records of those that aren't changed are known
// to be the held form's.
pub fn planned(
    cell: &[u8],
    update: &[u8],
    work: &[u8],
    end: usize,
    count: usize,
    edits: usize,
    join: &mut [u8],
    table: &mut [u32],
    room: &mut [u8],
) -> Scheme
    requires { Renewing cell.now update.now work.now end count edits × Rooms join.old table.old room.old }
    ensures planned { Planned (renewed cell.now update.now
        (objects_in cell.now update.now work.now end count edits)) result.plan }
    ensures told { Told result.same (AllSame cell.now update.now (places_of work.now end count edits)) }
    ensures rooms { Rooms join.new table.new room.new }
{
    let records = 3 + count;
    let front = front_sizes(cell, update);
    let items = measure(cell, update, work, end, count, edits, join, table, room);
    let sizes = items.sizes;
    let most = front.most.max(sizes.most);
    let total = front.sum + sizes.sum;
    let plan = Plan {
        fits: within_limits(records, most, total),
        total,
    };
    Scheme {
        plan,
        same: items.same,
    }
}

// Records 0 to 2 of the result, into the front of an area that has room for them.
fn put_fore(
    cell: &[u8],
    update: &[u8],
    work: &[u8],
    end: usize,
    count: usize,
    edits: usize,
    out: &mut [u8],
) -> usize
    requires { Renewing cell.now update.now work.now end count edits
        × (length (front_of cell.now update.now (objects_in cell.now update.now work.now end count edits)) ≤ length out.old) }
    ensures { Wrote out.old 0 (front_of cell.now update.now
        (objects_in cell.now update.now work.now end count edits)) out.new result }
{
    let counts = tally_items(cell, update, work, end, count, edits);
    let f = fronts_of(cell, update);
    put_front(cell, update, f, counts, out)
}

// The held form of the result, into the front of an area that has room for it; `same`: whether the
// records of the items that aren't changed are known to be the held form's.
pub fn put_result(
    cell: &[u8],
    update: &[u8],
    work: &[u8],
    end: usize,
    count: usize,
    edits: usize,
    same: bool,
    join: &mut [u8],
    table: &mut [u32],
    room: &mut [u8],
    out: &mut [u8],
) -> usize
    requires { Renewing cell.now update.now work.now end count edits
        × Told same (AllSame cell.now update.now (places_of work.now end count edits)) × Rooms join.old table.old room.old
        × (length (held_of (renewed cell.now update.now (objects_in cell.now update.now work.now end count edits))) ≤ length out.old) }
    ensures wrote { Wrote out.old 0 (held_of (renewed cell.now update.now
        (objects_in cell.now update.now work.now end count edits))) out.new result }
    ensures rooms { Rooms join.new table.new room.new }
{
    let next = put_fore(cell, update, work, end, count, edits, out);
    put_items(
        cell, update, work, end, count, edits, same, join, table, room, out, next,
    )
}
