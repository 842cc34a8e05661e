// A list of attributes edited by their labels, in time that grows with both lists together: a table
// with a number for each label tells where the update has the label.
ghost use Rattle.std.specs.Prelude.{◌+◌, ◌≤◌, ◌<◌, true, ◌&&◌, ◌≡◌, MatchOption, length, take, drop};
ghost use mathlib.Core.List.{flatten};
ghost use Rattle.octets.specs.Area.{Wrote};
ghost use Rattle.entries.specs.Entries.{entry_len, entries_of};
ghost use Rattle.attributes.specs.Attributes.{attribute, label_of, is_removal};
ghost use Rattle.edits.specs.OnePass.{apart, instead, worked, one_pass, findable};
ghost use Rattle.splice.specs.Put.{ListPut};
ghost use Rattle.labelled.specs.Table.{LabelAt, Labelled, Blank, Indexed, Passed, used, cleared, entry_at, unremoved, Facing, new_of, new_by, found_of, found_by};

use attributes::{is_removal, label_at};
use entries::{Shape, entry_len_at};
use splice::list::copy_part;
use table::sizes;

// The number of a label that both lists have: above all places of the update's list.
const USED: u32 = 4294967295;

// The length of the entry at `at` and its label; nothing where the list ends.
fn labelled_at(list: &[u8], at: usize) -> Option<(usize, usize)>
    requires { at ≤ length list.now }
    ensures { MatchOption result (0 ≡ entry_len attribute (drop at list.now)) (λ p. LabelAt list.now at p.0 p.1) }
{
    let n = entry_len_at(
        list,
        at,
        Shape {
            fixed: sizes::ATTV,
            unit: 1,
        },
    );
    if n == 0 {
        return None;
    }
    Some((n, label_at(list, at, n)))
}

// For each label that the update brings, 1 and its entry's place.
fn index(brought: &[u8], table: &mut [u32])
    requires { (length brought.now ≤ 300000) × Blank table.old }
    ensures { Indexed brought.now table.new }
{
    let mut at: usize = 0;
    while let Some((n, label)) = labelled_at(brought, at) {
        table[label] = (at + 1) as u32;
        at += n;
    }
}

// The entry at `from`, unless it is a removal.
fn put_unremoved(brought: &[u8], from: usize, out: &mut [u8], next: usize) -> usize
    requires { (from ≤ length brought.now) × (0 < entry_len attribute (drop from brought.now))
        × (next + length (unremoved (entry_at from brought.now)) ≤ length out.old) }
    ensures { Wrote out.old next (unremoved (entry_at from brought.now)) out.new result }
{
    let n = entry_len_at(
        brought,
        from,
        Shape {
            fixed: sizes::ATTV,
            unit: 1,
        },
    );
    if is_removal(brought, from, n) {
        return next;
    }
    copy_part(brought, from, from + n, out, next)
}

// What stands in the place of the held entry of n bytes at `at`: itself where the update doesn't have
// its label, else what the update brings.
fn put_instead(
    held: &[u8],
    at: usize,
    n: usize,
    brought: &[u8],
    p: u32,
    out: &mut [u8],
    next: usize,
) -> usize
    requires { Facing held.now at n brought.now p
        × (next + length (flatten (instead label_of is_removal (take n (drop at held.now)) (entries_of attribute brought.now))) ≤ length out.old) }
    ensures { Wrote out.old next (flatten (instead label_of is_removal (take n (drop at held.now)) (entries_of attribute brought.now)))
        out.new result }
{
    if p == 0 {
        return copy_part(held, at, at + n, out, next);
    }
    put_unremoved(brought, (p - 1) as usize, out, next)
}

// The number of a label that the held list has.
fn used_of(p: u32) -> u32
    ensures { result ≡ used p }
{
    if p == 0 {
        return 0;
    }
    USED
}

// The held entries in their places, kept, replaced or gone. Labels that both lists have are marked.
fn put_worked(held: &[u8], brought: &[u8], table: &mut [u32], out: &mut [u8], at: usize) -> usize
    requires { Labelled held.now brought.now × Indexed brought.now table.old
        × (at + length (flatten (worked label_of is_removal (entries_of attribute held.now) (entries_of attribute brought.now))) ≤ length out.old) }
    ensures { Wrote out.old at (flatten (worked label_of is_removal (entries_of attribute held.now) (entries_of attribute brought.now)))
        out.new result × Passed used held.now table.old table.new }
{
    let mut i: usize = 0;
    let mut next = at;
    while let Some((n, label)) = labelled_at(held, i) {
        let p = table[label];
        table[label] = used_of(p);
        next = put_instead(held, i, n, brought, p, out, next);
        i += n;
    }
    next
}

// The entry of n bytes at `at`, where it is new: where its label is not marked.
fn put_new(brought: &[u8], at: usize, n: usize, p: u32, out: &mut [u8], next: usize) -> usize
    requires { (at + n ≤ length brought.now) × (next + length (new_of p (take n (drop at brought.now))) ≤ length out.old) }
    ensures { Wrote out.old next (new_of p (take n (drop at brought.now))) out.new result }
{
    if p == USED {
        return next;
    }
    copy_part(brought, at, at + n, out, next)
}

// Whether all removals so far have found their labels, that of the entry of n bytes at `at` too.
fn still_found(found: bool, brought: &[u8], at: usize, n: usize, p: u32) -> bool
    requires { (3 ≤ n) × (at + n ≤ length brought.now) }
    ensures { result ≡ (found && found_of p (take n (drop at brought.now))) }
{
    if !found {
        return false;
    }
    if !is_removal(brought, at, n) {
        return true;
    }
    p == USED
}

// The entries that are new, in the update's order, and 0 for the number of each label; the answer is
// where they end, none where a removal has found nothing.
fn put_fresh(brought: &[u8], table: &mut [u32], out: &mut [u8], at: usize) -> Option<usize>
    requires { (apart label_of (entries_of attribute brought.now) ≡ true) × (length table.old ≡ 65536)
        × (at + length (flatten (new_by table.old (entries_of attribute brought.now))) ≤ length out.old) }
    ensures { ListPut (found_by table.old (entries_of attribute brought.now))
        (flatten (new_by table.old (entries_of attribute brought.now))) out.old at out.new result
        × Passed cleared brought.now table.old table.new }
{
    let mut i: usize = 0;
    let mut next = at;
    let mut found = true;
    while let Some((n, label)) = labelled_at(brought, i) {
        let p = table[label];
        table[label] = 0;
        found = still_found(found, brought, i, n, p);
        next = put_new(brought, i, n, p, out, next);
        i += n;
    }
    found.then_some(next)
}

// The attributes edited by their labels, written from `at` on: where they end; none where a removal
// finds nothing. The table has a number for each label, and is zero before and after.
pub fn put_attributes(
    held: &[u8],
    brought: &[u8],
    table: &mut [u32],
    out: &mut [u8],
    at: usize,
) -> Option<usize>
    requires { Labelled held.now brought.now × Blank table.old × (at + (length held.now + length brought.now) ≤ length out.old) }
    ensures { ListPut (findable label_of is_removal (entries_of attribute held.now) (entries_of attribute brought.now))
        (flatten (one_pass label_of is_removal (entries_of attribute held.now) (entries_of attribute brought.now))) out.old at out.new result
        × Blank table.new }
{
    index(brought, table);
    let next = put_worked(held, brought, table, out, at);
    put_fresh(brought, table, out, next)
}
