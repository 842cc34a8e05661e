// What is seen of an item on the way to its note: a vector's lists are found by one walk, or without one
// where a node has one pair, and it is judged at once. All names are known by then; FOIDs and the ends of
// other edges are nothing to a vector.
ghost use Rattle.std.specs.Prelude.{◌≤◌, ◌<◌, ◌≡◌};
ghost use Rattle.headvalues.specs.Dspm.{most_comf};
ghost use Rattle.words.specs.Words.{words_in};
ghost use Rattle.table.specs.Table.{VRPT};
ghost use Rattle.items.specs.Identity.{id_at};
ghost use Rattle.items.specs.Item.{item_at};
ghost use Rattle.items.specs.Lists.{entries_at};
ghost use Rattle.items.specs.Premises.{LaidOut};
ghost use Rattle.items.specs.Word.{word_offset};
ghost use Rattle.names.specs.Premises.{Stands};
ghost use Rattle.ring.specs.Walk.{ends_with};
ghost use Rattle.spans.specs.Spans.{Reached, SpanOf};
ghost use Rattle.quickvectors.specs.Quick.{NamesIn};
ghost use Rattle.topology.specs.Notes.{note_for, Ranked, AloneTold, SeenTold, ClearWith};

use crate::note::note_at;
use iso8211::field::{Record, head_of};
use items::word;
use quickvectors::{pair_lying, vector_lying};
use ring::ends::{ends_between, ends_of};
use spans::{Front, Span, front_of, lone_pair, spans_of};
use table::{sizes, tags};

// The note of an item, and whether it is known to have no fault.
#[derive(Drop)]
pub struct Seen {
    pub note: u64,
    pub clear: bool,
}

// The ends of the edge at `at`, whose pointers lie in this span: where they stand in one field, by these
// two alone.
fn ends_lying(r: &Record, ends: Span) -> u64
    requires { LaidOut r.now.file.now r.now.at × SpanOf r.now.file.now r.now.at 1448235092 ends }
    ensures { result ≡ ends_with (entries_at r.now.file.now r.now.at VRPT) }
{
    let from = ends.from;
    let to = ends.to;
    if to < from {
        return ends_of(r);
    }
    if to - from != 18 {
        return ends_of(r);
    }
    let mid = from + sizes::VRPT;
    ends_between(&r.file[from..mid], &r.file[mid..to])
}

// The note of the vector at `at`, whose pointers lie in this span.
fn vector_note(r: &Record, rank: u64, ends: Span) -> u64
    requires { Ranked r.now.file.now r.now.at rank × (rank ≡ 3 → ⊥) × SpanOf r.now.file.now r.now.at 1448235092 ends }
    ensures { result ≡ note_for (item_at r.now.file.now r.now.at) }
{
    if rank != 2 {
        return 0;
    }
    ends_lying(r, ends)
}

// Whether the vector at `at` is a node whose lists hold one pair, and field 2, which is due at `due`, is it.
fn node_alone(r: &Record, rank: u64, due: usize) -> bool
    requires { Ranked r.now.file.now r.now.at rank × (rank ≡ 3 → ⊥) × Reached r.now.file.now r.now.at r.now.head 2 due }
    ensures { AloneTold r.now.file.now r.now.at rank due result }
{
    if rank == 2 {
        return false;
    }
    lone_pair(r, due)
}

// A vector whose lists are found by a walk: its identifier field starts at `id`, and field 2 is due at
// `due`.
fn lists_seen(
    r: &Record,
    rank: u64,
    id: usize,
    due: usize,
    comf: u32,
    work: &[u8],
    m: usize,
    nodes: usize,
) -> Seen
    requires { Ranked r.now.file.now r.now.at rank × (rank ≡ 3 → ⊥) × (id ≡ id_at r.now.file.now r.now.at)
        × Reached r.now.file.now r.now.at r.now.head 2 due × NamesIn work.now m × (comf ≤ most_comf) }
    ensures { SeenTold comf (words_in work.now 0 m) (item_at r.now.file.now r.now.at) result }
{
    let sp = spans_of(r, 2, due, tags::VRPT, tags::SG2D, tags::SG3D);
    Seen {
        note: vector_note(r, rank, sp.one),
        clear: vector_lying(r.file, r.at, id, sp, comf, work, m, nodes),
    }
}

// A vector. `nodes` is where the words of connected nodes may begin. Most are nodes of one pair, whose
// lists need no finding.
fn vector_seen(
    s: &[u8],
    at: usize,
    rank: u64,
    comf: u32,
    work: &[u8],
    m: usize,
    nodes: usize,
) -> Seen
    requires { Ranked s.now at rank × (rank ≡ 3 → ⊥) × NamesIn work.now m × (comf ≤ most_comf) }
    ensures { SeenTold comf (words_in work.now 0 m) (item_at s.now at) result }
{
    let h = head_of(s, at);
    let r = Record {
        file: s,
        at,
        head: h,
    };
    let Front::Vector(id, due) = front_of(&r) else {
        return Seen {
            note: note_at(s, at, rank),
            clear: false,
        };
    };
    if node_alone(&r, rank, due) {
        return Seen {
            note: 0,
            clear: pair_lying(s, at, due, comf),
        };
    }
    lists_seen(&r, rank, id, due, comf, work, m, nodes)
}

// The item at `at`, whose class has this rank. Features are judged when all notes stand.
pub fn seen_at(
    s: &[u8],
    at: usize,
    rank: u64,
    comf: u32,
    work: &[u8],
    m: usize,
    nodes: usize,
) -> Seen
    requires { Ranked s.now at rank × NamesIn work.now m × (comf ≤ most_comf) }
    ensures { SeenTold comf (words_in work.now 0 m) (item_at s.now at) result }
{
    if rank == 3 {
        return Seen {
            note: note_at(s, at, rank),
            clear: false,
        };
    }
    vector_seen(s, at, rank, comf, work, m, nodes)
}

// The item whose word is w.
pub fn seen_of(s: &[u8], w: u64, comf: u32, work: &[u8], m: usize, nodes: usize) -> Seen
    requires { Stands s.now w × NamesIn work.now m × (comf ≤ most_comf) }
    ensures { SeenTold comf (words_in work.now 0 m) (item_at s.now (word_offset w)) result }
{
    let at = (w % word::NAME_WEIGHT) as usize;
    seen_at(s, at, w / word::RANK_WEIGHT, comf, work, m, nodes)
}

// How many items at the front have no fault, behind item i: one more if all before it have none.
pub fn clear_with(clear: usize, i: usize, good: bool) -> usize
    requires { i < 18446744073709551615 }
    ensures { ClearWith clear i good result }
{
    if good && clear == i { i + 1 } else { clear }
}
