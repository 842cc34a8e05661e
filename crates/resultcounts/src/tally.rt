// The true counts of DSSI, from the items of the result.
ghost use Rattle.std.specs.Prelude.{◌≡◌};
ghost use Rattle.counted.specs.Tallies.{with_record, AtMost};
ghost use Rattle.held.specs.Held.{tally_in};
ghost use Rattle.topology.specs.Notes.{Ranked};
ghost use Rattle.resultitems.specs.Result.{object_of};
ghost use Rattle.resultitems.specs.Able.{Able};
ghost use Rattle.resultitems.specs.Items.{Items, objects_in};
ghost use Rattle.resultcounts.specs.Counts.{with_object};

use counted::counts::{Tally, add_feature, add_vector};
use iso8211::field::{Record, head_of};
use items::identity::objl_of;
use items::word;
use merge::At;
use merge::walk::item_at;
use reissue::tally::class_of;

// The counts with the record of s at `at`, whose class has this rank. Of a vector the rank says all.
fn add_record(t: Tally, s: &[u8], at: usize, rank: u64) -> Tally
    requires { AtMost 5242880 t × Ranked s.now at rank }
    ensures { result ≡ with_record t s.now at }
{
    if rank == 3 {
        return add_feature(
            t,
            objl_of(&Record {
                file: s,
                at,
                head: head_of(s, at),
            }),
        );
    }
    add_vector(t, class_of(rank))
}

// The counts with an item: a changed one has the class of the record that it changes.
fn add_item(t: Tally, cell: &[u8], update: &[u8], a: At) -> Tally
    requires { AtMost 5242880 t × Able cell.now update.now a }
    ensures { result ≡ with_object t (object_of cell.now update.now a) }
{
    let rank = a.word / word::RANK_WEIGHT;
    let at = (a.word % word::MARK_WEIGHT) as usize;
    if a.word / word::MARK_WEIGHT % 2 == 1 {
        return add_record(t, update, at, rank);
    }
    add_record(t, cell, at, rank)
}

// The counts of all items.
pub fn tally_items(
    cell: &[u8],
    update: &[u8],
    work: &[u8],
    end: usize,
    count: usize,
    edits: usize,
) -> Tally
    requires { Items cell.now update.now work.now end count edits }
    ensures { result ≡ tally_in (objects_in cell.now update.now work.now end count edits) }
{
    let mut t = Tally {
        meta: 0,
        geo: 0,
        collection: 0,
        isolated: 0,
        connected: 0,
        edges: 0,
    };
    let mut j: usize = 0;
    for i in 0..count {
        let a = item_at(work, end, count, edits, i, j);
        t = add_item(t, cell, update, a);
        j += a.change;
    }
    t
}
