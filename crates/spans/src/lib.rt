// Where the lists of an item's record lie in the file: one walk over its fields finds three or two of
// them. It promises to the crates above: `front_of`, where the lists begin, `lone_pair`, whether one pair
// is all there is, and `spans_of` and `two_spans_of`, from where to where the bytes of each list stand, if
// it stands in one field. It takes fields from `iso8211` and records that are laid out from `items`. Lists
// in several fields are left to the cursors of `items`.
#![tactic(auto)]

ghost use Rattle.std.specs.Prelude.{◌+◌, ◌≤◌, ◌≡◌, length};
ghost use Rattle.items.specs.Premises.{LaidOut, Identified};
ghost use Rattle.spans.specs.Spans.{span, span_with, Reached, FrontTold, LoneTold, SpanOf};

use iso8211::field::{Field, Record};
use octets::number::get1;
use table::tags;

// The bytes of a list: from `from` up to `to` of the file. Where `to` is before `from`, the list
// stands in several fields.
#[derive(Clone, Copy)]
pub struct Span {
    pub from: usize,
    pub to: usize,
}

// Those of three lists.
#[derive(Drop)]
pub struct Spans {
    pub one: Span,
    pub two: Span,
    pub three: Span,
}

// Those of two.
#[derive(Drop)]
pub struct TwoSpans {
    pub one: Span,
    pub two: Span,
}

// Where the identifier field of a vector or a feature starts, and where the first field behind the
// identifier fields; or a record that does not begin with 0001 and these.
#[derive(Drop)]
pub enum Front {
    Vector(usize, usize),
    Feature(usize, usize),
    Other,
}

// The lengths of 0001, VRID, FRID and FOID are known, so that none is read.
pub fn front_of(r: &Record) -> Front
    requires { LaidOut r.now.file.now r.now.at × Identified r.now.file.now r.now.at }
    ensures { FrontTold r.now.file.now r.now.at r.now.head result }
{
    if r.tag(0) != tags::FIRST {
        return Front::Other;
    }
    let base = r.head.base;
    let id = r.at + base + 3;
    if get1(r.file, id) == 100 {
        return Front::Feature(id, id + 22);
    }
    if r.tag(1) != tags::VRID {
        return Front::Other;
    }
    Front::Vector(id, id + 9)
}

// Whether field 2, which is due at `due`, is the last, and an SG2D of one pair with its 1E, as in most
// nodes: then there is nothing to walk over.
pub fn lone_pair(r: &Record, due: usize) -> bool
    requires { Reached r.now.file.now r.now.at r.now.head 2 due }
    ensures { LoneTold r.now.file.now r.now.at due result }
{
    if r.head.count != 3 {
        return false;
    }
    let f = r.field_on(2, due);
    if f.tag != tags::SG2D {
        return false;
    }
    f.length == 9
}

// The span of the list with this tag behind field f, sp being the one before it.
fn span_with(s: &[u8], sp: Span, f: Field, tag: u32) -> Span
    requires { (1 ≤ f.length) × (f.start + f.length ≤ length s.now) }
    ensures { result ≡ span_with sp f tag }
{
    if f.tag != tag {
        return sp;
    }
    if sp.from != sp.to {
        return Span { from: 1, to: 0 };
    }
    let from = f.start;
    Span {
        from,
        to: from + (f.length - 1),
    }
}

// The same of three lists.
fn spans_with(s: &[u8], sp: Spans, f: Field, a: u32, b: u32, c: u32) -> Spans
    requires { (1 ≤ f.length) × (f.start + f.length ≤ length s.now) }
    ensures { (result.one ≡ span_with sp.one f a) × (result.two ≡ span_with sp.two f b) × (result.three ≡ span_with sp.three f c) }
{
    let one = sp.one;
    let two = sp.two;
    let three = sp.three;
    Spans {
        one: span_with(s, one, f, a),
        two: span_with(s, two, f, b),
        three: span_with(s, three, f, c),
    }
}

// No bytes of any list yet.
fn no_spans() -> Spans
    ensures { (result.one ≡ span 0 0) × (result.two ≡ span 0 0) × (result.three ≡ span 0 0) }
{
    let none = Span { from: 0, to: 0 };
    Spans {
        one: none,
        two: none,
        three: none,
    }
}

// Where the field behind f starts.
fn field_end(s: &[u8], f: Field) -> usize
    requires { f.start + f.length ≤ length s.now }
    ensures { result ≡ f.start + f.length }
{
    f.start + f.length
}

// The spans of the lists that have these three tags, in the fields from field `first` on, which
// starts at `start`.
pub fn spans_of(r: &Record, first: usize, start: usize, a: u32, b: u32, c: u32) -> Spans
    requires { Reached r.now.file.now r.now.at r.now.head first start }
    ensures { SpanOf r.now.file.now r.now.at a result.one × SpanOf r.now.file.now r.now.at b result.two × SpanOf r.now.file.now r.now.at c result.three }
{
    let count = r.head.count;
    let mut sp = no_spans();
    let mut due = start;
    for j in first..count {
        let f = r.field_on(j, due);
        sp = spans_with(r.file, sp, f, a, b, c);
        due = field_end(r.file, f);
    }
    sp
}

// The same of two lists, all that is asked of a feature: each walk then has one caller, into which the
// compiler puts it.
pub fn two_spans_of(r: &Record, first: usize, start: usize, a: u32, b: u32) -> TwoSpans
    requires { Reached r.now.file.now r.now.at r.now.head first start }
    ensures { SpanOf r.now.file.now r.now.at a result.one × SpanOf r.now.file.now r.now.at b result.two }
{
    let count = r.head.count;
    let mut one = Span { from: 0, to: 0 };
    let mut two = Span { from: 0, to: 0 };
    let mut due = start;
    for j in first..count {
        let f = r.field_on(j, due);
        one = span_with(r.file, one, f, a);
        two = span_with(r.file, two, f, b);
        due = field_end(r.file, f);
    }
    TwoSpans { one, two }
}
