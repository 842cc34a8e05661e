// The record of the object that a modify makes, built in an area that the caller lends: its lists
// from 256 on, each edited from the two records, then in front of them what stands before lists.
ghost use Rattle.std.specs.Prelude.{◌+◌, ◌-◌, ◌≤◌, true, ◌≡◌, length};
ghost use Rattle.octets.specs.Area.{Wrote};
ghost use Rattle.table.specs.Table.{row_of};
ghost use Rattle.items.specs.Identity.{rcnm_at};
ghost use Rattle.records.specs.Written.{body_of};
ghost use Rattle.items.specs.Item.{item_at};
ghost use Rattle.edits.specs.Lists.{allowed_at};
ghost use Rattle.itemrows.specs.Joined.{field_piece};
ghost use Rattle.changes.specs.Amend.{kinds_of};
ghost use Rattle.changes.specs.Change.{amendment_at, edit_of};
ghost use Rattle.amend.specs.Sides.{Sides, list_bytes, Areas};
ghost use Rattle.amend.specs.Pairs.{PlanFor};
ghost use Rattle.raising.specs.Record.{both_for, Editable, EditedPut, ListsPut};

use amend::lists::put_kind;
use amend::plan::{Plan, plan_of};
use iso8211::field::{Record, head_of};
use items::identity::rcnm_of;
use lying::Lists;
use octets::number::put1;
use raising::heading::{put_feature, put_vector};

// List k edited, which it may be, and its 1E, from `place` on; an empty list as nothing.
fn put_edited_field(
    cell: &Lists,
    update: &Lists,
    k: usize,
    plan: Plan,
    join: &mut [u8],
    table: &mut [u32],
    room: &mut [u8],
    place: usize,
) -> usize
    requires { Sides cell.now.record.file.now cell.now.record.at update.now.record.file.now update.now.record.at
        × PlanFor cell.now.record.file.now cell.now.record.at update.now.record.file.now update.now.record.at plan × ((row_of k).list ≡ true)
        × (allowed_at (edit_of (amendment_at update.now.record.file.now update.now.record.at))
        (item_at cell.now.record.file.now cell.now.record.at).lists k ≡ true)
        × Areas join.old table.old
        × (place + both_for cell.now.record.file.now cell.now.record.at update.now.record.file.now update.now.record.at k ≤ length room.old) }
    ensures { Wrote room.old place (body_of (field_piece k
        (list_bytes cell.now.record.file.now cell.now.record.at update.now.record.file.now update.now.record.at k))) room.new result
        × (place ≤ result) × (result ≤ place + both_for cell.now.record.file.now cell.now.record.at update.now.record.file.now update.now.record.at k)
        × Areas join.new table.new }
{
    let end = put_kind(cell, update, k, plan, join, table, room, place).unwrap();
    if end == place {
        return place;
    }
    put1(room, end, 30)
}

// How many bytes a field has without its 1E that stands between two places; none where it doesn't
// stand.
fn content_size(from: usize, to: usize) -> u32
    requires { (from ≤ to) × (to ≤ 4000000000) }
    ensures { result ≡ to - from - 1 }
{
    (to - from).saturating_sub(1) as u32
}

// The four lists edited, one field each, from 256 on; the answer is how many bytes each has.
fn put_edited_lists(
    cell: &Lists,
    update: &Lists,
    plan: Plan,
    join: &mut [u8],
    table: &mut [u32],
    room: &mut [u8],
) -> [u32; 4]
    requires { Editable cell.now.record.file.now cell.now.record.at update.now.record.file.now update.now.record.at
        × PlanFor cell.now.record.file.now cell.now.record.at update.now.record.file.now update.now.record.at plan
        × Areas join.old table.old × (200500 ≤ length room.old) }
    ensures { ListsPut (list_bytes cell.now.record.file.now cell.now.record.at update.now.record.file.now update.now.record.at) plan.kinds room.new result
        × Areas join.new table.new }
{
    let mut totals = [0u32; 4];
    let mut next: usize = 256;
    for (i, &k) in plan.kinds.iter().enumerate() {
        let end = put_edited_field(cell, update, k, plan, join, table, room, next);
        totals[i] = content_size(next, end);
        next = end;
    }
    totals
}

// The same by what the update's record says, and by where the lists of both records lie.
fn put_lists_lying(
    cell: &Lists,
    update: &Lists,
    join: &mut [u8],
    table: &mut [u32],
    room: &mut [u8],
) -> [u32; 4]
    requires { Editable cell.now.record.file.now cell.now.record.at update.now.record.file.now update.now.record.at
        × Areas join.old table.old × (200500 ≤ length room.old) }
    ensures { ListsPut (list_bytes cell.now.record.file.now cell.now.record.at update.now.record.file.now update.now.record.at) (kinds_of
        (rcnm_at cell.now.record.file.now cell.now.record.at)) room.new result
        × Areas join.new table.new }
{
    let plan = plan_of(cell, update, join);
    put_edited_lists(cell, update, plan, join, table, room)
}

// The same, after one walk over each record.
fn put_lists_by(
    cell: &[u8],
    at: usize,
    update: &[u8],
    by: usize,
    join: &mut [u8],
    table: &mut [u32],
    room: &mut [u8],
) -> [u32; 4]
    requires { Editable cell.now at update.now by × Areas join.old table.old × (200500 ≤ length room.old) }
    ensures { ListsPut (list_bytes cell.now at update.now by) (kinds_of (rcnm_at cell.now at)) room.new result
        × Areas join.new table.new }
{
    put_lists_lying(
        &Lists::of(cell, at),
        &Lists::of(update, by),
        join,
        table,
        room,
    )
}

// The record of the object that the modify at `by` makes of the cell's record at `at`, with the
// running number 0; the answer is where it starts.
pub fn put_edited_record(
    cell: &[u8],
    at: usize,
    update: &[u8],
    by: usize,
    join: &mut [u8],
    table: &mut [u32],
    room: &mut [u8],
) -> usize
    requires { Editable cell.now at update.now by × Areas join.old table.old × (200500 ≤ length room.old) }
    ensures { EditedPut cell.now at update.now by room.new result × Areas join.new table.new }
{
    let totals = put_lists_by(cell, at, update, by, join, table, room);
    let head = head_of(cell, at);
    let record = Record {
        file: cell,
        at,
        head,
    };
    if rcnm_of(&record) == 100 {
        return put_feature(&record, totals, room);
    }
    put_vector(&record, totals, room)
}
