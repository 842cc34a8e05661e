// The code of one record of an update: 13 Target, 14 Version, 15 Identity, 16 Edit, or 0.
ghost use Rattle.std.specs.Prelude.{◌+◌, ◌*◌, ◌≤◌, ◌≡◌, length};
ghost use Rattle.std.proofs.Math.Option.{none, some};
ghost use Rattle.words.specs.Words.{words_in};
ghost use Rattle.items.specs.Premises.{LaidOut, Identified};
ghost use Rattle.items.specs.Identity.{ruin_at};
ghost use Rattle.items.specs.Item.{item_at};
ghost use Rattle.names.specs.NameWords.{items_at};
ghost use Rattle.changes.specs.Change.{amendment_at};
ghost use Rattle.changes.specs.Amend.{edit_allowed, found_code, amendment_code};
ghost use Rattle.amend.specs.Sides.{Areas};
ghost use Rattle.amend.specs.Pairs.{Paired};
ghost use Rattle.amendments.specs.Amendable.{Amendable};

use allowed::brought::{delete_allowed, insert_allowed};
use allowed::identity::identity_same;
use allowed::rule::lists_allowed;
use answers::codes::{EDIT, IDENTITY, TARGET, VERSION};
use iso8211::field::{Record, head_of};
use items::identity::{name_of, ruin_of, version_of};
use lookups::lookup::lookup;

// The code of a record whose name the cell doesn't hold.
fn missing_code(update: &Record) -> u32
    requires { LaidOut update.now.file.now update.now.at × Identified update.now.file.now update.now.at }
    ensures { result ≡ found_code (amendment_at update.now.file.now update.now.at) none }
{
    if ruin_of(update) != 1 {
        return TARGET;
    }
    if version_of(update) != 1 {
        return VERSION;
    }
    if !insert_allowed(update) {
        return EDIT;
    }
    0
}

// Whether a record that deletes or modifies may edit the object that it names so.
fn edit_allowed(
    cell: &[u8],
    at: usize,
    update: &Record,
    ruin: u32,
    join: &mut [u8],
    table: &mut [u32],
    room: &mut [u8],
) -> bool
    requires { Paired cell.now at update.now.file.now update.now.at × Identified update.now.file.now update.now.at × (ruin ≡ ruin_at update.now.file.now update.now.at)
        × Areas join.old table.old × (199999 ≤ length room.old) }
    ensures { (result ≡ edit_allowed (amendment_at update.now.file.now update.now.at) (item_at cell.now at)) × Areas join.new table.new }
{
    if ruin == 2 {
        return delete_allowed(update);
    }
    lists_allowed(cell, at, update.file, update.at, join, table, room)
}

// The code of a record whose name is that of the cell's record at `at`.
fn held_code(
    cell: &[u8],
    at: usize,
    update: &Record,
    join: &mut [u8],
    table: &mut [u32],
    room: &mut [u8],
) -> u32
    requires { Paired cell.now at update.now.file.now update.now.at × Identified update.now.file.now update.now.at × Areas join.old table.old
        × (199999 ≤ length room.old) }
    ensures { (result ≡ found_code (amendment_at update.now.file.now update.now.at) (some (item_at cell.now at))) × Areas join.new table.new }
{
    let ruin = ruin_of(update);
    if ruin == 1 {
        return TARGET;
    }
    let hc = head_of(cell, at);
    let held = Record {
        file: cell,
        at,
        head: hc,
    };
    if version_of(update) != version_of(&held) + 1 {
        return VERSION;
    }
    if !identity_same(update, &held) {
        return IDENTITY;
    }
    if !edit_allowed(cell, at, update, ruin, join, table, room) {
        return EDIT;
    }
    0
}

// The code of the update's record at `by` against the cell, whose n words stand in the work area from
// word `from` on.
pub fn amendment_code(
    cell: &[u8],
    update: &[u8],
    by: usize,
    work: &[u8],
    from: usize,
    n: usize,
    join: &mut [u8],
    table: &mut [u32],
    room: &mut [u8],
) -> u32
    requires { Amendable cell.now (words_in work.now from n) update.now by × (8 * (from + n) ≤ length work.now) × Areas join.old table.old
        × (199999 ≤ length room.old) }
    ensures { (result ≡ amendment_code (items_at cell.now (words_in work.now from n)) (amendment_at update.now by))
        × Areas join.new table.new }
{
    let h = head_of(update, by);
    let r = Record {
        file: update,
        at: by,
        head: h,
    };
    let Some(at) = lookup(work, from, n, name_of(&r)) else {
        return missing_code(&r);
    };
    held_code(cell, at, &r, join, table, room)
}
