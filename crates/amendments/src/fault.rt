// The first record of an update that has a code of 13 to 16.
ghost use Rattle.std.specs.Prelude.{◌+◌, ◌*◌, ◌≤◌, ◌≡◌, length};
ghost use Rattle.words.specs.Words.{words_in};
ghost use Rattle.names.specs.NameWords.{items_at};
ghost use Rattle.answers.specs.Answer.{outcome};
ghost use Rattle.changes.specs.Change.{change_of};
ghost use Rattle.changes.specs.Amend.{amendments_fault, placed_in};
ghost use Rattle.amend.specs.Sides.{Areas};
ghost use Rattle.amendments.specs.Amendable.{AllAmendable};

use crate::code::amendment_code;
use answers::Refusal;
use answers::refusal::refuse;
use iso8211::field::record_end;
use names::walk::start_of;

// The records of an update of m records, in the file's order, against the cell, whose n words stand
// in the work area from word `from` on.
pub fn amendments_fault(
    cell: &[u8],
    update: &[u8],
    m: usize,
    work: &[u8],
    from: usize,
    n: usize,
    join: &mut [u8],
    table: &mut [u32],
    room: &mut [u8],
) -> Result<(), Refusal>
    requires { AllAmendable cell.now (words_in work.now from n) update.now m × (8 * (from + n) ≤ length work.now) × Areas join.old table.old
        × (199999 ≤ length room.old) }
    ensures { (result ≡ outcome (placed_in update.now (amendments_fault (items_at cell.now (words_in work.now from n)) 2
        (change_of update.now m).amendments))) × Areas join.new table.new }
{
    let mut at = start_of(update, m, 2);
    for k in 2..m {
        let code = amendment_code(cell, update, at, work, from, n, join, table, room);
        if code != 0 {
            return Err(refuse(code, k, at));
        }
        at = record_end(update, at);
    }
    Ok(())
}
