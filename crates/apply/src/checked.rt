// Code 3, and the codes of reading both files.
ghost use Rattle.std.specs.Prelude.{◌≡◌, Ok, length};
ghost use Rattle.reader.specs.Reader.{front_of};
ghost use Rattle.loader.specs.Admit.{area_by};
ghost use Rattle.loader.specs.Apply.{result_of, apply_of};

use amending::changed;
use answers::Answer;
use answers::answer::answered;
use answers::codes::{WORK, WORK_EACH};
use readboth::both::both_fault;

// An opened cell of n records and an opened update of m: code 3, then 4 to 8 of the cell, 4 to 7 of the
// update, then what comes of the two.
pub fn applied(
    cell: &[u8],
    n: usize,
    update: &[u8],
    m: usize,
    out: &mut [u8],
    work: &mut [u8],
) -> Answer
    requires { (front_of 1 cell.now ≡ Ok n) × (front_of 2 update.now ≡ Ok m) }
    ensures value { result ≡ apply_of cell.now update.now (length work.old) (length out.old) }
    ensures out_after { out.new ≡ area_by result (result_of cell.now n update.now m) out.old }
{
    if work.len() < WORK_EACH * (n + m) {
        return answered(WORK, 0, 0, WORK_EACH * (n + m), 0);
    }
    let a = both_fault(cell, n, update, m, work);
    let code = a.code;
    if code != 0 {
        return a;
    }
    changed(cell, n, update, m, work, out)
}
