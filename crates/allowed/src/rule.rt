// Whether a modify may edit the lists of the object that it names: "edit rule broken" where not.
ghost use Rattle.std.specs.Prelude.{◌≤◌, true, ◌≡◌, length};
ghost use Rattle.table.specs.Table.{row_of};
ghost use Rattle.items.specs.Identity.{rcnm_at};
ghost use Rattle.items.specs.Premises.{Listed};
ghost use Rattle.items.specs.Item.{item_at};
ghost use Rattle.edits.specs.Lists.{allowed_at, lists_allowed};
ghost use Rattle.changes.specs.Amend.{kinds_of};
ghost use Rattle.changes.specs.Change.{amendment_at, edit_of};
ghost use Rattle.amend.specs.Sides.{Sides, Areas};
ghost use Rattle.amend.specs.Pairs.{Paired, PlanFor};
ghost use Rattle.allowed.specs.Brought.{AddsTold};

use crate::brought::all_kept;
use amend::lists::{is_attributes, put_kind};
use amend::plan::{Plan, plan_of};
use iso8211::field::Record;
use lying::Lists;

// Whether list k is one of attributes, of which the update's record removes none: these may all come.
fn adds_alone(update: &Record, k: usize) -> bool
    requires { Listed update.now.file.now update.now.at update.now.head k }
    ensures { AddsTold update.now.file.now update.now.at k result }
{
    if !is_attributes(k) {
        return false;
    }
    all_kept(update, k)
}

// Whether list k may be edited so.
fn kind_allowed(
    cell: &Lists,
    update: &Lists,
    k: usize,
    plan: Plan,
    join: &mut [u8],
    table: &mut [u32],
    room: &mut [u8],
) -> bool
    requires { Sides cell.now.record.file.now cell.now.record.at update.now.record.file.now update.now.record.at
        × PlanFor cell.now.record.file.now cell.now.record.at update.now.record.file.now update.now.record.at plan × ((row_of k).list ≡ true)
        × Areas join.old table.old × (199999 ≤ length room.old) }
    ensures { (result ≡ allowed_at (edit_of (amendment_at update.now.record.file.now update.now.record.at))
        (item_at cell.now.record.file.now cell.now.record.at).lists k)
        × Areas join.new table.new }
{
    if adds_alone(&update.record, k) {
        return true;
    }
    put_kind(cell, update, k, plan, join, table, room, 0).is_some()
}

// Whether four lists may.
fn four_allowed(
    cell: &Lists,
    update: &Lists,
    plan: Plan,
    join: &mut [u8],
    table: &mut [u32],
    room: &mut [u8],
) -> bool
    requires { Sides cell.now.record.file.now cell.now.record.at update.now.record.file.now update.now.record.at
        × PlanFor cell.now.record.file.now cell.now.record.at update.now.record.file.now update.now.record.at plan
        × Areas join.old table.old × (199999 ≤ length room.old) }
    ensures { (result ≡ lists_allowed plan.kinds (edit_of (amendment_at update.now.record.file.now update.now.record.at))
        (item_at cell.now.record.file.now cell.now.record.at).lists)
        × Areas join.new table.new }
{
    let kinds = plan.kinds;
    for i in 0..4 {
        let k = kinds[i];
        if !kind_allowed(cell, update, k, plan, join, table, room) {
            return false;
        }
    }
    true
}

// Whether the lists of a record of the cell may, by what the update's record says, and by where the
// lists of both lie.
fn lying_allowed(
    cell: &Lists,
    update: &Lists,
    join: &mut [u8],
    table: &mut [u32],
    room: &mut [u8],
) -> bool
    requires { Paired cell.now.record.file.now cell.now.record.at update.now.record.file.now update.now.record.at
        × Areas join.old table.old × (199999 ≤ length room.old) }
    ensures { (result ≡ lists_allowed (kinds_of (rcnm_at cell.now.record.file.now cell.now.record.at)) (edit_of
        (amendment_at update.now.record.file.now update.now.record.at)) (item_at cell.now.record.file.now cell.now.record.at).lists)
        × Areas join.new table.new }
{
    let plan = plan_of(cell, update, join);
    four_allowed(cell, update, plan, join, table, room)
}

// Whether the update's record at `by` may edit the lists of the cell's record at `at`. The edited
// lists are written into `room` one after the other, and left.
pub fn lists_allowed(
    cell: &[u8],
    at: usize,
    update: &[u8],
    by: usize,
    join: &mut [u8],
    table: &mut [u32],
    room: &mut [u8],
) -> bool
    requires { Paired cell.now at update.now by × Areas join.old table.old × (199999 ≤ length room.old) }
    ensures { (result ≡ lists_allowed (kinds_of (rcnm_at cell.now at)) (edit_of (amendment_at update.now by)) (item_at cell.now at).lists)
        × Areas join.new table.new }
{
    lying_allowed(
        &Lists::of(cell, at),
        &Lists::of(update, by),
        join,
        table,
        room,
    )
}
