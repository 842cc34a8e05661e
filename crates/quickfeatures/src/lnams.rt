// The features that a feature names: each LNAM is the FOID of one.
ghost use Rattle.std.specs.Prelude.{◌+◌, ◌-◌, ◌≤◌, ◌≡◌, length};
ghost use Rattle.octets.specs.Number.{num_at};
ghost use Rattle.words.specs.Words.{words_in};
ghost use Rattle.octets.specs.Lists.{is_in};
ghost use Rattle.names.specs.Premises.{Noted};
ghost use Rattle.spans.specs.Spans.{SpanIn};
ghost use Rattle.quickfeatures.specs.Quick.{LnamsTold, RelatedTold};

use entries::entry_len_at;
use items::shape::shape_of;
use lookups::lookup::has_near;
use octets::number::get8;
use spans::Span;
use table::kinds;
use words::get;

// How the FOIDs lie if they lie evenly: the first, and how far each lies behind the one before it. It
// is reckoned once for a feature, and promises nothing but that one can divide by the step.
#[derive(Clone, Copy)]
struct Lie {
    first: u64,
    step: u64,
}

// That between the first and the last, the step rounded up.
fn lie_of(work: &[u8], m: usize, v: usize) -> Lie
    requires { Noted work.now m v }
    ensures { 1 ≤ result.step }
{
    if m <= v {
        return Lie { first: 0, step: 1 };
    }
    let first = get(work, m + v);
    let last = get(work, m + m - 1);
    if last <= first {
        return Lie { first, step: 1 };
    }
    let apart = last - first;
    let step = (apart - 1) / (m - v) as u64 + 1;
    Lie { first, step }
}

// Where a FOID stands if all lie so: a guess, which promises nothing.
fn guess(lie: Lie, foid: u64) -> usize
    requires { 1 ≤ lie.step }
{
    if foid < lie.first {
        return 0;
    }
    ((foid - lie.first) / lie.step) as usize
}

// Whether the LNAM of an FFPT is the FOID of a feature.
fn lnam_held(e: &[u8], work: &[u8], m: usize, v: usize, lie: Lie) -> bool
    requires { (8 ≤ length e.now) × Noted work.now m v × (1 ≤ lie.step) }
    ensures { result ≡ is_in (num_at e.now 0 8) (words_in work.now (m + v) (m - v)) }
{
    let foid = get8(e, 0);
    let near = guess(lie, foid);
    has_near(work, m + v, m - v, foid, near)
}

// Whether all are, of the FFPT in these bytes.
fn lnams_held(part: &[u8], work: &[u8], m: usize, v: usize) -> bool
    requires { Noted work.now m v }
    ensures { LnamsTold part.now work.now m v result }
{
    let shape = shape_of(kinds::FFPT);
    let lie = lie_of(work, m, v);
    let mut at: usize = 0;
    // A loop: the step is the entry's own length, which also tells where the entries end.
    loop {
        let n = entry_len_at(part, at, shape);
        if n == 0 {
            return true;
        }
        let end = at + n;
        if !lnam_held(&part[at..end], work, m, v, lie) {
            return false;
        }
        at = end;
    }
}

// Whether all of a span are, if it is one. Of a feature that names none nothing is reckoned.
pub fn lnams_quick(s: &[u8], sp: Span, work: &[u8], m: usize, v: usize) -> bool
    requires { SpanIn s.now sp × Noted work.now m v }
    ensures { RelatedTold s.now sp work.now m v result }
{
    let from = sp.from;
    let to = sp.to;
    if to < from {
        return false;
    }
    if from == to {
        return true;
    }
    lnams_held(&s[from..to], work, m, v)
}
