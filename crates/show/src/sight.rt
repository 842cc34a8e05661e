// What Show comes to: a part, or a refusal.
ghost use Rattle.std.specs.Prelude.{true, false, ◌≡◌};
ghost use Rattle.show.specs.Show.{cell_sight, both_sight, sight_answer, sight_bytes};
ghost use Rattle.show.specs.Place.{sight_place};
ghost use Rattle.show.specs.Listed.{Listed, BothListed, SightIn};

use crate::span::{Span, lent, span_of};
use answers::Answer;
use answers::answer::answered;
use answers::codes::ABSENT;
use shownames::named::place_named;

// The record of this name of a readable cell of n records, whose words stand in the work area from
// word `from` on; or the answer of a refusal.
pub fn cell_sight(
    cell: &[u8],
    n: usize,
    work: &[u8],
    from: usize,
    rcnm: u32,
    rcid: u32,
) -> Result<Span, Answer>
    requires { Listed false cell.now n work.now from }
    ensures { result ≡ cell_sight cell.now n rcnm rcid }
{
    let Some(at) = place_named(work, from, n - 3, rcnm, rcid) else {
        return Err(answered(ABSENT, 0, 0, 0, 0));
    };
    Ok(span_of(cell, at, false))
}

// The record of this name of a readable update of m records, or else of the cell. The cell's words
// stand behind room for as many as both have, the update's behind them.
pub fn both_sight(
    cell: &[u8],
    n: usize,
    update: &[u8],
    m: usize,
    work: &[u8],
    rcnm: u32,
    rcid: u32,
) -> Result<Span, Answer>
    requires { BothListed cell.now n update.now m work.now }
    ensures { result ≡ both_sight cell.now n update.now m rcnm rcid }
{
    let half = n - 3 + (m - 2);
    let Some(at) = place_named(work, half + (n - 3), m - 2, rcnm, rcid) else {
        return cell_sight(cell, n, work, half, rcnm, rcid);
    };
    Ok(span_of(update, at, true))
}

// The answer: for a part its length.
pub fn sight_answer(sight: Result<Span, Answer>) -> Answer
    ensures { result ≡ sight_answer sight }
{
    match sight {
        Ok(span) => answered(0, 0, 0, span.size, 0),
        Err(a) => a,
    }
}

// The part; for a refusal the cell's first 0 bytes.
pub fn sight_part<'a>(cell: &'a [u8], update: &'a [u8], sight: Result<Span, Answer>) -> &'a [u8]
    requires { SightIn cell.now update.now sight }
    ensures result_value { result.now ≡ sight_bytes cell.now update.now sight }
    ensures ref_ptr_value { result.ref_ptr ≡ sight_place cell.entry.ref_ptr update.entry.ref_ptr sight }
{
    let Ok(span) = sight else {
        let none: usize = 0;
        return &cell[none..none];
    };
    lent(cell, update, span)
}
