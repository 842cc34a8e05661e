// Judge: a cell; answer only.
ghost use Rattle.std.specs.Prelude.{◌≡◌, length, replicate, Ok};
ghost use Rattle.names.specs.Premises.{HeldIn};
ghost use Rattle.answers.specs.Answer.{outcome};
ghost use Rattle.judging.specs.Judge.{cell_verdict, judge_of};
ghost use Rattle.readonce.specs.Once.{CellRead};

use answers::answer::answer_of;
use answers::{Answer, Refusal};
use octets::area::clear;
use readonce::cell::cell_read;
use topology::topology_fault;

// The verdict on a cell of n records that has none of the codes 1 to 8: codes 17 to 19. Where it has
// none of these either, the words of its items, in held order, are still in the work area.
pub fn cell_verdict(cell: &[u8], n: usize, work: &mut [u8]) -> Result<(), Refusal>
    requires { CellRead cell.now n work.old }
    ensures value { result ≡ outcome (cell_verdict cell.now n) }
    ensures held_in { result ≡ Ok tt → HeldIn cell.now n work.new }
{
    topology_fault(cell, n, work)
}

// The refusal in reading, or that verdict.
fn judged(cell: &[u8], work: &mut [u8]) -> Answer
    ensures { result ≡ judge_of cell.now (length work.old) }
{
    match cell_read(cell, work) {
        Ok(n) => answer_of(1, cell_verdict(cell, n, work)),
        Err(a) => a,
    }
}

// The verdict on a cell. The work area is zero afterwards.
pub fn judge(cell: &[u8], work: &mut [u8]) -> Answer
    ensures value { result ≡ judge_of cell.now (length work.old) }
    ensures work_after { work.new ≡ replicate (length work.old) 0 }
{
    let a = judged(cell, work);
    clear(work);
    a
}
