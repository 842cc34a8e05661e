// Notes in the second half of the work area, one for each item: of an edge the nodes at which it
// begins and ends, of a feature its FOID. Rings and LNAM are then judged without looking at those
// records again.
ghost use Rattle.std.specs.Prelude.{◌+◌, ◌*◌, ◌≤◌, ◌≡◌, length};
ghost use Rattle.octets.specs.Premises.{Reads};
ghost use Rattle.headvalues.specs.Dspm.{most_comf};
ghost use Rattle.words.specs.Words.{words_in};
ghost use Rattle.words.specs.Order.{Sorted};
ghost use Rattle.table.specs.Table.{VRPT};
ghost use Rattle.items.specs.Identity.{rcnm_at, foid_at};
ghost use Rattle.items.specs.Lists.{entries_at};
ghost use Rattle.items.specs.Premises.{LaidOut, Identified};
ghost use Rattle.ring.specs.Walk.{ends_with};
ghost use Rattle.items.specs.Item.{item_at};
ghost use Rattle.topology.specs.Notes.{note_for, notes_for, Ranked, Roomy, Beside, NotesPut, Prepared, ClearTo};
ghost use Rattle.names.specs.NameWords.{items_at};

use crate::seen::{clear_with, seen_of};
use iso8211::field::{Record, head_of};
use items::identity::foid_of;
use items::word;
use lookups::starts::starts_of;
use octets::number::get8;
use ring::ends::ends_of;
use spans::{Front, front_of};
use words::{find, get, put, sort};

// The ends of the edge at `at`. Few come here: `seen_at` tells them by where the pointers lie.
fn ends_note(s: &[u8], at: usize) -> u64
    requires { LaidOut s.now at }
    ensures { result ≡ ends_with (entries_at s.now at VRPT) }
{
    let h = head_of(s, at);
    let r = Record {
        file: s,
        at,
        head: h,
    };
    ends_of(&r)
}

// The FOID that stands behind the FRID at `id`, which has twelve bytes and its 1E.
fn foid_behind(s: &[u8], id: usize) -> u64
    requires { id + 21 ≤ length s.now }
    ensures { Reads s.now (id + 13) 8 result }
{
    get8(s, id + 13)
}

// The FOID of the feature at `at`.
fn foid_note(s: &[u8], at: usize) -> u64
    requires { LaidOut s.now at × Identified s.now at × (rcnm_at s.now at ≡ 100) }
    ensures { result ≡ foid_at s.now at }
{
    let h = head_of(s, at);
    let r = Record {
        file: s,
        at,
        head: h,
    };
    let Front::Feature(id, _due) = front_of(&r) else {
        return foid_of(&r);
    };
    foid_behind(s, id)
}

// The note of the item at `at`, whose class has this rank.
pub fn note_at(s: &[u8], at: usize, rank: u64) -> u64
    requires { Ranked s.now at rank }
    ensures { result ≡ note_for (item_at s.now at) }
{
    if rank == 3 {
        return foid_note(s, at);
    }
    if rank == 2 {
        return ends_note(s, at);
    }
    0
}

// The notes of the m items whose words stand at the front of the area, behind these; the answer is how
// many items at the front are seen to have no fault on the way.
fn put_notes(s: &[u8], work: &mut [u8], m: usize, comf: u32, nodes: usize) -> usize
    requires { Roomy s.now work.old m × Sorted (words_in work.old 0 m) × (comf ≤ most_comf) }
    ensures { NotesPut (notes_for (items_at s.now (words_in work.old 0 m))) work.old m work.new
        × ClearTo comf s.now (words_in work.old 0 m) result }
{
    let mut clear: usize = 0;
    for i in 0..m {
        let seen = seen_of(s, get(work, i), comf, work, m, nodes);
        put(work, m + i, seen.note);
        clear = clear_with(clear, i, seen.clear);
    }
    clear
}

// Behind m words their notes, those of the features put in order; the answer is the number of vectors.
pub fn sort_notes(work: &mut [u8], m: usize) -> usize
    requires { (16 * m ≤ length work.old) × Sorted (words_in work.old 0 m) }
    ensures { Prepared (words_in work.old m m) (words_in work.old 0 m) m work.new result × Beside work.old m work.new }
{
    let vectors = find(work, 0, m, word::FEATURE_WORD);
    sort(work, m + vectors, m - vectors);
    vectors
}

// The number of vectors among the items, and how many items at the front have no fault.
#[derive(Drop)]
pub struct Ready {
    pub vectors: usize,
    pub clear: usize,
}

// The notes of m items of a file, with those of the features in order.
pub fn prepare(s: &[u8], work: &mut [u8], m: usize, comf: u32) -> Ready
    requires { Roomy s.now work.old m × Sorted (words_in work.old 0 m) × (comf ≤ most_comf) }
    ensures { Prepared (notes_for (items_at s.now (words_in work.old 0 m))) (words_in work.old 0 m) m work.new result.vectors
        × ClearTo comf s.now (words_in work.old 0 m) result.clear }
{
    let starts = starts_of(work, m);
    let clear = put_notes(s, work, m, comf, starts.connected);
    Ready {
        vectors: sort_notes(work, m),
        clear,
    }
}
