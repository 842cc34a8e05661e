// A cell read: by one pass over it, and from where the pass stops by the code that finds the refusal.
ghost use Rattle.std.specs.Prelude.{◌≡◌, Ok, length};
ghost use Rattle.names.specs.Premises.{HeldIn};
ghost use Rattle.reader.specs.Lent.{StartedAt};
ghost use Rattle.reader.specs.Reader.{cell_fault, front_of};
ghost use Rattle.answers.specs.Answer.{outcome};
ghost use Rattle.readonce.specs.Once.{AllPassed, CellPassed, CellOpened, CellTold};

use crate::pass::{Passed, file_once};
use answers::answer::{answered, of_refusal};
use answers::codes::{COUNTS, TWICE, WORK, WORK_EACH};
use answers::refusal::refuse;
use answers::{Answer, Refusal};
use counted::counts::{Tally, tally_counts};
use iso8211::field::record_end;
use names::twice::twice;
use reader::fault::cell_fault_from;
use reader::front::{opened_from, started};
use words::sort;

// Codes 7 and 8 of a cell of n records that the pass read to the end. One without any has left the words
// of its items, in held order, in the work area.
fn passed_fault(cell: &[u8], n: usize, tally: Tally, work: &mut [u8]) -> Result<(), Refusal>
    requires { AllPassed cell.now n tally work.old }
    ensures value { result ≡ outcome (cell_fault cell.now n) }
    ensures held_in { result ≡ Ok tt → HeldIn cell.now n work.new }
{
    sort(work, 0, n - 3);
    if let Some(t) = twice(cell, n, false, work) {
        return Err(refuse(TWICE, t.index, t.offset));
    }
    if !tally_counts(cell, n, tally) {
        return Err(refuse(COUNTS, 1, record_end(cell, 0)));
    }
    Ok(())
}

// Codes 4 to 8 of a cell of n records, from where the pass came to. The same is left.
fn rest_fault(cell: &[u8], n: usize, passed: Passed, work: &mut [u8]) -> Result<(), Refusal>
    requires { CellOpened cell.now n passed work.old }
    ensures value { result ≡ outcome (cell_fault cell.now n) }
    ensures held_in { result ≡ Ok tt → HeldIn cell.now n work.new }
{
    let count = passed.count;
    if count != 0 {
        return passed_fault(cell, count, passed.tally, work);
    }
    cell_fault_from(cell, n, passed.reached, work)
}

// Code 3, then these: the n records of a cell without any of them, or the refusal.
fn read_rest(cell: &[u8], n: usize, passed: Passed, work: &mut [u8]) -> Result<usize, Answer>
    requires { CellPassed cell.now passed work.old × (front_of 1 cell.now ≡ Ok n) }
    ensures { CellTold cell.now (length work.old) work.new result }
{
    if work.len() < WORK_EACH * n {
        return Err(answered(WORK, 0, 0, WORK_EACH * n, 0));
    }
    if let Err(r) = rest_fault(cell, n, passed, work) {
        return Err(of_refusal(1, r));
    }
    Ok(n)
}

// The pass over a cell whose record 1 starts at `start`; code 2 from where the pass came to, then these.
fn read_from(cell: &[u8], start: usize, work: &mut [u8]) -> Result<usize, Answer>
    requires { StartedAt cell.now start }
    ensures { CellTold cell.now (length work.old) work.new result }
{
    let passed = file_once(cell, start, false, work);
    let reached = passed.reached;
    let n = opened_from(cell, 1, reached.index, reached.at)?;
    read_rest(cell, n, passed, work)
}

// A cell read, codes 1 to 8: how many records it has, or the refusal. One without any leaves the words
// of its items, in held order, in the work area.
pub fn cell_read(cell: &[u8], work: &mut [u8]) -> Result<usize, Answer>
    ensures { CellTold cell.now (length work.old) work.new result }
{
    let at = started(cell, 1)?;
    read_from(cell, at, work)
}
