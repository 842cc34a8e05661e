// The two calls of reading.
ghost use Rattle.std.specs.Prelude.{ℕ, ◌≡◌, length, replicate};
ghost use Rattle.reader.specs.Lent.{FileOpened};
ghost use Rattle.reader.specs.Reader.{opening, cell_checked, both_checked};
ghost use Rattle.reader.specs.Calls.{read_cell, read_both};

use crate::both::both_fault;
use answers::Answer;
use answers::answer::{answer_of, answered};
use answers::codes::{WORK, WORK_EACH};
use octets::area::clear;
use reader::fault::cell_fault;
use reader::front::opened;

// A framed cell of n records: code 3, then 4 to 8.
fn cell_checked(cell: &[u8], n: usize, work: &mut [u8]) -> Answer
    requires { FileOpened cell.now n }
    ensures { result ≡ cell_checked cell.now (length work.old) n }
{
    if work.len() < WORK_EACH * n {
        return answered(WORK, 0, 0, WORK_EACH * n, 0);
    }
    answer_of(1, cell_fault(cell, n, work))
}

// Whether a cell is readable. The work area is zero afterwards.
pub fn read_cell(cell: &[u8], work: &mut [u8]) -> Answer
    ensures value { result ≡ read_cell cell.now (length work.old) }
    ensures work_after { work.new ≡ replicate (length work.old) 0 }
{
    let a = match opened(cell, 1) {
        Ok(n) => cell_checked(cell, n, work),
        Err(a) => a,
    };
    clear(work);
    a
}

// A framed cell of n records and a framed update of m: code 3, then 4 to 8 of the cell, then 4 to 7
// of the update.
fn both_checked(cell: &[u8], update: &[u8], n: usize, m: usize, work: &mut [u8]) -> Answer
    requires { FileOpened cell.now n × FileOpened update.now m }
    ensures { result ≡ both_checked cell.now update.now (length work.old) n m }
{
    if work.len() < WORK_EACH * (n + m) {
        return answered(WORK, 0, 0, WORK_EACH * (n + m), 0);
    }
    both_fault(cell, n, update, m, work)
}

// A framed cell of n records, and an update that is still to be opened.
fn update_opened(cell: &[u8], n: usize, update: &[u8], work: &mut [u8]) -> Answer
    requires { FileOpened cell.now n }
    ensures { result ≡ opening 2 update.now (λ (m : ℕ). both_checked cell.now update.now (length work.old) n m) }
{
    match opened(update, 2) {
        Ok(m) => both_checked(cell, update, n, m, work),
        Err(a) => a,
    }
}

// Whether a cell and an update are both readable. The work area is zero afterwards.
pub fn read_both(cell: &[u8], update: &[u8], work: &mut [u8]) -> Answer
    ensures value { result ≡ read_both cell.now update.now (length work.old) }
    ensures work_after { work.new ≡ replicate (length work.old) 0 }
{
    let a = match opened(cell, 1) {
        Ok(n) => update_opened(cell, n, update, work),
        Err(a) => a,
    };
    clear(work);
    a
}
