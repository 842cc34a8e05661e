// Whether all coordinates of a list are within their limits, in one loop without a way out.
ghost use Rattle.std.specs.Prelude.{◌≡◌, ◌+◌, ◌*◌, ◌/◌, ◌<◌, ◌≤◌, length};
ghost use Rattle.headvalues.specs.Dspm.{most_comf};
ghost use Rattle.spans.specs.Spans.{SpanIn};
ghost use Rattle.quickvectors.specs.Quick.{BeyondTold, PairTold, PairsTold, ListTold};

use octets::number::get4;
use spans::Span;
use std::num::wrapping_add_u32;
use table::offsets;

// Whether a signed number of four bytes is farther from 0 than the limit, on either side.
fn beyond(u: u32, limit: u32) -> bool
    requires { limit ≤ 1800000000 }
    ensures { BeyondTold u limit result }
{
    2 * limit < wrapping_add_u32(u, limit)
}

// Whether Y or X of a pair or a sounding is.
pub fn pair_beyond(e: &[u8], comf: u32) -> bool
    requires { (8 ≤ length e.now) × (comf ≤ most_comf) }
    ensures { PairTold comf e.now result }
{
    let y = beyond(get4(e, 0), 90 * comf);
    let x = beyond(get4(e, offsets::XCOO), 180 * comf);
    y | x
}

// Where entry k starts.
fn entry_start(part: &[u8], size: usize, k: usize) -> usize
    requires { (8 ≤ size) × (k < length part.now / size) }
    ensures { (result ≡ k * size) × (result + size ≤ length part.now) × (k < length part.now) }
{
    k * size
}

// Whether all entries of these bytes, `size` each, are within.
fn pairs_within(part: &[u8], size: usize, comf: u32) -> bool
    requires { (8 ≤ size) × (comf ≤ most_comf) }
    ensures { PairsTold comf size part.now result }
{
    let n = part.len() / size;
    let mut out = false;
    for k in 0..n {
        let i = entry_start(part, size, k);
        let end = i + size;
        out |= pair_beyond(&part[i..end], comf);
    }
    !out
}

// Whether all entries of a span are, if it is one.
pub fn list_within(s: &[u8], sp: Span, size: usize, comf: u32) -> bool
    requires { SpanIn s.now sp × (8 ≤ size) × (comf ≤ most_comf) }
    ensures { ListTold comf size s.now sp result }
{
    let from = sp.from;
    let to = sp.to;
    if to < from {
        return false;
    }
    pairs_within(&s[from..to], size, comf)
}
