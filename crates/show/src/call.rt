// The stages of Show, in document 01's order.
ghost use Rattle.std.specs.Prelude.{◌≡◌, length, replicate};
ghost use Rattle.reader.specs.Lent.{FileOpened};
ghost use Rattle.show.specs.Show.{alone_sight, pair_sight, update_sight, sight_of};

use crate::sight::{both_sight, cell_sight};
use crate::span::Span;
use answers::Answer;
use answers::answer::{answered, of_refusal};
use answers::codes::{WORK, WORK_EACH};
use octets::area::clear;
use readboth::both::both_fault;
use reader::fault::cell_fault;
use reader::front::opened;

// A framed cell of n records without an update: code 3, then 4 to 8, then 0 or 22.
fn alone(cell: &[u8], n: usize, work: &mut [u8], rcnm: u32, rcid: u32) -> Result<Span, Answer>
    requires { FileOpened cell.now n }
    ensures { result ≡ alone_sight cell.now n (length work.old) rcnm rcid }
{
    if work.len() < WORK_EACH * n {
        return Err(answered(WORK, 0, 0, WORK_EACH * n, 0));
    }
    if let Err(r) = cell_fault(cell, n, work) {
        return Err(of_refusal(1, r));
    }
    cell_sight(cell, n, work, 0, rcnm, rcid)
}

// A framed cell of n records and a framed update of m: code 3, then 4 to 8 of the cell, 4 to 7 of the
// update, then 0 or 22.
fn pair(
    cell: &[u8],
    n: usize,
    update: &[u8],
    m: usize,
    work: &mut [u8],
    rcnm: u32,
    rcid: u32,
) -> Result<Span, Answer>
    requires { FileOpened cell.now n × FileOpened update.now m }
    ensures { result ≡ pair_sight cell.now n update.now m (length work.old) rcnm rcid }
{
    if work.len() < WORK_EACH * (n + m) {
        return Err(answered(WORK, 0, 0, WORK_EACH * (n + m), 0));
    }
    let a = both_fault(cell, n, update, m, work);
    let code = a.code;
    if code != 0 {
        return Err(a);
    }
    both_sight(cell, n, update, m, work, rcnm, rcid)
}

// A framed cell of n records, and an update that is still to be opened, if there is one.
fn with_update(
    cell: &[u8],
    n: usize,
    update: &[u8],
    work: &mut [u8],
    rcnm: u32,
    rcid: u32,
) -> Result<Span, Answer>
    requires { FileOpened cell.now n }
    ensures { result ≡ update_sight cell.now n update.now (length work.old) rcnm rcid }
{
    if update.len() == 0 {
        return alone(cell, n, work, rcnm, rcid);
    }
    let m = opened(update, 2)?;
    pair(cell, n, update, m, work, rcnm, rcid)
}

// A cell that is still to be opened, and an update, if there is one.
fn with_cell(
    cell: &[u8],
    update: &[u8],
    work: &mut [u8],
    rcnm: u32,
    rcid: u32,
) -> Result<Span, Answer>
    ensures { result ≡ sight_of cell.now update.now (length work.old) rcnm rcid }
{
    let n = opened(cell, 1)?;
    with_update(cell, n, update, work, rcnm, rcid)
}

// What Show comes to. The work area is zero afterwards.
pub fn seen(
    cell: &[u8],
    update: &[u8],
    work: &mut [u8],
    rcnm: u32,
    rcid: u32,
) -> Result<Span, Answer>
    ensures value { result ≡ sight_of cell.now update.now (length work.old) rcnm rcid }
    ensures work_after { work.new ≡ replicate (length work.old) 0 }
{
    let sight = with_cell(cell, update, work, rcnm, rcid);
    clear(work);
    sight
}
