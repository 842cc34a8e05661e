// The lists of the object that a modify makes, each built from the bytes that the cell has and those
// that the update brings, which are copied side by side into an area first.
ghost use Rattle.std.specs.Prelude.{◌+◌, ◌≤◌, true, ◌≡◌, length};
ghost use mathlib.Core.List.{flatten};
ghost use Rattle.fieldvalue.specs.Value.{is_attributes};
ghost use Rattle.table.specs.Table.{row_of};
ghost use Rattle.entries.specs.Entries.{entries_of};
ghost use Rattle.layout.specs.Layout.{shape_of};
ghost use Rattle.items.specs.Lists.{list_at};
ghost use Rattle.items.specs.Item.{item_at};
ghost use Rattle.edits.specs.Lists.{allowed_at};
ghost use Rattle.splice.specs.Given.{option_of};
ghost use Rattle.splice.specs.Put.{ListPut};
ghost use Rattle.labelled.specs.Table.{Blank};
ghost use Rattle.changes.specs.Change.{amendment_at, edit_of};
ghost use Rattle.amend.specs.Sides.{Sides, list_bytes, Picked, Areas, SideBySide, front_of, back_of, may_put, put_of, Ready, StaysTold};
ghost use Rattle.amend.specs.Pairs.{PlanFor};
ghost use Rattle.items.specs.Premises.{LaidOut};

use crate::control::control_for;
use crate::plan::Plan;
use items::shape::shape_of;
use labelled::labels::put_attributes;
use lying::Lists;
use splice::control::Control;
use splice::list::put_spliced;
use table::kinds;

// Whether a list of kind k is one of attributes.
pub fn is_attributes(k: usize) -> bool
    ensures { result ≡ is_attributes k }
{
    k == kinds::ATTV || k == kinds::ATTF || k == kinds::NATF
}

// Where the cell's bytes of a list end and where the update's do, which stand behind them.
#[derive(Drop)]
pub struct Split {
    pub held: usize,
    pub all: usize,
}

// The bytes of list k of the cell's record and of the update's, side by side at the front of an area.
fn put_sides(cell: &Lists, update: &Lists, k: usize, join: &mut [u8]) -> Split
    requires { LaidOut cell.now.record.file.now cell.now.record.at × LaidOut update.now.record.file.now update.now.record.at
        × (length (list_at cell.now.record.file.now cell.now.record.at k) + length
        (list_at update.now.record.file.now update.now.record.at k) ≤ length join.old) }
    ensures { SideBySide (list_at cell.now.record.file.now cell.now.record.at k)
        (list_at update.now.record.file.now update.now.record.at k) join.new result }
{
    let held = cell.put(k, join, 0);
    let all = update.put(k, join, held);
    Split { held, all }
}

// The edited list of kind k from the two that stand side by side, written from `place` on: where it
// ends; none where it may not be edited so.
fn put_joined(
    join: &[u8],
    s: Split,
    k: usize,
    c: Option<Control>,
    table: &mut [u32],
    room: &mut [u8],
    place: usize,
) -> Option<usize>
    requires { Ready k c (front_of join.now s) (back_of join.now s) × Blank table.old × (s.held ≤ s.all) × (s.all ≤ length join.now)
        × (place + (length (front_of join.now s) + length (back_of join.now s)) ≤ length room.old) }
    ensures { ListPut (may_put k (option_of c) (entries_of (shape_of k) (front_of join.now s)) (entries_of (shape_of k) (back_of join.now s)))
        (flatten (put_of k (option_of c) (entries_of (shape_of k) (front_of join.now s)) (entries_of (shape_of k) (back_of join.now s))))
        room.old place room.new result × Blank table.new }
{
    let from: usize = 0;
    let held = s.held;
    let all = s.all;
    if is_attributes(k) {
        return put_attributes(&join[from..held], &join[held..all], table, room, place);
    }
    let sh = shape_of(k);
    put_spliced(&join[from..held], &join[held..all], sh, c, room, place)
}

// Whether no control acts on list k, and the update's record brings nothing to it.
fn stays(update: &Lists, k: usize, c: Option<Control>) -> bool
    requires { LaidOut update.now.record.file.now update.now.record.at }
    ensures { StaysTold update.now.record.file.now update.now.record.at k c result }
{
    c.is_none() && update.total(k) == 0
}

// The edited list of kind k of the cell's record, written from `place` on: where it ends; none where
// the update's record may not edit it so. A list that stays is copied from where it lies.
fn put_edited(
    cell: &Lists,
    update: &Lists,
    k: usize,
    c: Option<Control>,
    join: &mut [u8],
    table: &mut [u32],
    room: &mut [u8],
    place: usize,
) -> Option<usize>
    requires { Sides cell.now.record.file.now cell.now.record.at update.now.record.file.now update.now.record.at
        × Picked cell.now.record.file.now cell.now.record.at update.now.record.file.now update.now.record.at k c
        × Areas join.old table.old
        × (place + (length (list_at cell.now.record.file.now cell.now.record.at k) + length
        (list_at update.now.record.file.now update.now.record.at k)) ≤ length room.old) }
    ensures { ListPut (allowed_at (edit_of (amendment_at update.now.record.file.now update.now.record.at))
        (item_at cell.now.record.file.now cell.now.record.at).lists k)
        (list_bytes cell.now.record.file.now cell.now.record.at update.now.record.file.now update.now.record.at k) room.old place room.new result
        × Areas join.new table.new }
{
    if stays(update, k, c) {
        return Some(cell.put(k, room, place));
    }
    let s = put_sides(cell, update, k, join);
    put_joined(join, s, k, c, table, room, place)
}

// The same by the control that the plan has for list k.
pub fn put_kind(
    cell: &Lists,
    update: &Lists,
    k: usize,
    plan: Plan,
    join: &mut [u8],
    table: &mut [u32],
    room: &mut [u8],
    place: usize,
) -> Option<usize>
    requires { Sides cell.now.record.file.now cell.now.record.at update.now.record.file.now update.now.record.at
        × PlanFor cell.now.record.file.now cell.now.record.at update.now.record.file.now update.now.record.at plan
        × ((row_of k).list ≡ true) × Areas join.old table.old
        × (place + (length (list_at cell.now.record.file.now cell.now.record.at k) + length
        (list_at update.now.record.file.now update.now.record.at k)) ≤ length room.old) }
    ensures { ListPut (allowed_at (edit_of (amendment_at update.now.record.file.now update.now.record.at))
        (item_at cell.now.record.file.now cell.now.record.at).lists k)
        (list_bytes cell.now.record.file.now cell.now.record.at update.now.record.file.now update.now.record.at k) room.old place room.new result
        × Areas join.new table.new }
{
    let c = control_for(k, plan.first, plan.second, plan.coordinates);
    put_edited(cell, update, k, c, join, table, room, place)
}
