// The call Show: the whole bytes of a vector or feature record by its name, a part of the update if it
// has one so named, else of the cell. It takes reading from `reader` and `readboth`, the look-up of a
// name from `shownames` and the answer of 16 bytes from `answers`. It accepts all bytes, all areas and
// all numbers; the work area is zero afterwards.
#![tactic(auto)]

ghost use Rattle.show.specs.Shows.{Shows};

use answers::sixteen::put_answer;
use call::seen;
use sight::{sight_answer, sight_part};

pub mod call;
pub mod sight;
pub mod span;

// An update of length 0 means none. An answer area of exactly 16 bytes is filled; a refusal returns
// the cell's first 0 bytes.
pub fn show<'a>(
    cell: &'a [u8],
    update: &'a [u8],
    work: &mut [u8],
    answer: &mut [u8],
    rcnm: u32,
    rcid: u32,
) -> &'a [u8]
    ensures { Shows cell.now update.now work.old work.new answer.old answer.new rcnm rcid result.now
        cell.entry.ref_ptr update.entry.ref_ptr result.ref_ptr }
{
    let sight = seen(cell, update, work, rcnm, rcid);
    put_answer(sight_answer(sight), answer);
    sight_part(cell, update, sight)
}
