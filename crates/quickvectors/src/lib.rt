// Whether a vector has no fault of topology, quickly: the lists lie where `spans` says, their sizes
// tell the shape, one loop tells whether all coordinates are within their limits, and the nodes of an
// edge are looked up where they are guessed (`lookups`). It promises one way only: where it says yes,
// Shape, Pointer and Ring find no fault; where it says no, the general code decides.
#![tactic(auto)]

ghost use Rattle.std.specs.Prelude.{◌≤◌, length};
ghost use Rattle.headvalues.specs.Dspm.{most_comf};
ghost use Rattle.items.specs.Item.{item_at};
ghost use Rattle.spans.specs.Spans.{SpanIn};
ghost use Rattle.words.specs.Words.{words_in};
ghost use Rattle.quickvectors.specs.Quick.{NodeTold, PairedTold, HeldTold, EndsTold, EdgeTold, VectorIn, NamesIn, VectorTold, NodeIn, WordlessTold};

use coordinates::{list_within, pair_beyond};
use lookups::lookup::{index_near, name_in};
use octets::number::get1;
use spans::{Span, Spans};
use table::sizes;
use vectorshape::vector::{end_good, topi_of};

pub mod coordinates;

// Whether a node, isolated where RCNM is 110, has the lists of its class, by their sizes: no pointer,
// and one pair of eight bytes; or, isolated, soundings of twelve each.
fn node_shaped(rcnm: u32, ends: Span, pairs: Span, soundings: Span) -> bool
    requires { (pairs.from ≤ pairs.to) × (soundings.from ≤ soundings.to) }
    ensures { NodeTold rcnm ends pairs soundings result }
{
    if ends.from != ends.to {
        return false;
    }
    let sounded = soundings.to - soundings.from;
    let paired = pairs.to - pairs.from;
    if paired == 8 {
        return sounded == 0;
    }
    if paired != 0 {
        return false;
    }
    if rcnm != 110 {
        return false;
    }
    12 <= sounded
}

// Whether two VRPT name connected nodes, one as the begin and one as the end of an edge.
fn ends_shaped(a: &[u8], b: &[u8]) -> bool
    requires { (9 ≤ length a.now) × (9 ≤ length b.now) }
    ensures { PairedTold a.now b.now result }
{
    if !end_good(a) {
        return false;
    }
    if !end_good(b) {
        return false;
    }
    topi_of(a) + topi_of(b) == 3
}

// Whether the node that a VRPT names is there. `start` is where the words of connected nodes may
// begin.
fn is_held(e: &[u8], work: &[u8], m: usize, start: usize) -> bool
    requires { (9 ≤ length e.now) × NamesIn work.now m }
    ensures { HeldTold e.now work.now m result }
{
    index_near(work, 0, m, name_in(e), m, start).is_some()
}

// Whether both hold of the two pointers of an edge.
fn ends_held(a: &[u8], b: &[u8], work: &[u8], m: usize, start: usize) -> bool
    requires { (9 ≤ length a.now) × (9 ≤ length b.now) × NamesIn work.now m }
    ensures { EndsTold a.now b.now work.now m result }
{
    if !ends_shaped(a, b) {
        return false;
    }
    if !is_held(a, work, m, start) {
        return false;
    }
    is_held(b, work, m, start)
}

// Whether an edge has two pointers, to its begin and to its end, which are there.
fn edge_shaped(s: &[u8], ends: Span, work: &[u8], m: usize, start: usize) -> bool
    requires { SpanIn s.now ends × NamesIn work.now m }
    ensures { EdgeTold s.now ends work.now m result }
{
    let from = ends.from;
    let to = ends.to;
    if to < from {
        return false;
    }
    if to - from != 18 {
        return false;
    }
    let mid = from + sizes::VRPT;
    ends_held(&s[from..mid], &s[mid..to], work, m, start)
}

// Whether the vector at `at` has no fault: its identifier field starts at `id`, and its pointers, pairs
// and soundings lie in these spans.
pub fn vector_lying(
    s: &[u8],
    at: usize,
    id: usize,
    sp: Spans,
    comf: u32,
    work: &[u8],
    m: usize,
    start: usize,
) -> bool
    requires { VectorIn s.now at id sp × NamesIn work.now m × (comf ≤ most_comf) }
    ensures { VectorTold comf (words_in work.now 0 m) (item_at s.now at) result }
{
    let ends = sp.one;
    let pairs = sp.two;
    let soundings = sp.three;
    if !list_within(s, pairs, sizes::SG2D, comf) {
        return false;
    }
    if !list_within(s, soundings, sizes::SG3D, comf) {
        return false;
    }
    let rcnm = get1(s, id);
    if rcnm != 130 {
        return node_shaped(rcnm, ends, pairs, soundings);
    }
    if soundings.from != soundings.to {
        return false;
    }
    edge_shaped(s, ends, work, m, start)
}

// The same of a node whose lists hold one pair, the bytes from `from` on: it is shaped as a node must be,
// so that its coordinates decide.
pub fn pair_lying(s: &[u8], at: usize, from: usize, comf: u32) -> bool
    requires { NodeIn s.now at from × (comf ≤ most_comf) }
    ensures { WordlessTold comf (item_at s.now at) result }
{
    let to = from + sizes::SG2D;
    !pair_beyond(&s[from..to], comf)
}
