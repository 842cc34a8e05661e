// A cell and an update, each read in one pass.
ghost use Rattle.bothonce.specs.Both.{BothTold};

use crate::raise::raise;
use crate::update::update_from;
use answers::codes::WORK_EACH;
use readonce::cell::cell_read;

// How many records a cell and an update have that are without any of the codes 1 to 8; None of two of
// which that isn't known. Two that are read in one pass each leave the words of their names side by side
// in the work area; the first half of it stays free for what is made of them.
pub fn both_once(cell: &[u8], update: &[u8], work: &mut [u8]) -> Option<(usize, usize)>
    ensures { BothTold cell.now update.now work.new result }
{
    let n = cell_read(cell, work).ok()?;
    let held = n - 3;
    let m = update_from(update, work, held);
    if m == 0 {
        return None;
    }
    if work.len() < WORK_EACH * (n + m) {
        return None;
    }
    raise(work, held + (m - 2));
    Some((n, m))
}
