// Admit: a cell; writes its held form.
ghost use Rattle.std.specs.Prelude.{◌≡◌, length, replicate};
ghost use Rattle.held.specs.Chart.{chart_of};
ghost use Rattle.reissue.specs.Plan.{Ready};
ghost use Rattle.loader.specs.Admit.{held_answer, area_by, admit_of, admit_area};
ghost use Rattle.loader.specs.Settling.{Settling};

use answers::answer::{answered, of_refusal};
use answers::codes::{MOST_RECORDS, ROOM, SIZE};
use answers::{Answer, Refusal};
use judging::judge::cell_verdict;
use octets::area::clear;
use readonce::cell::cell_read;
use reissue::plan::planned;
use reissue::write::put_chart;

// Codes 20 and 21, then the held form: of a cell of n records that has no refusal before them, its
// words in held order in the work area.
fn held_into(cell: &[u8], n: usize, out: &mut [u8], work: &[u8]) -> Answer
    requires { Ready cell.now n work.now }
    ensures value { result ≡ held_answer (length out.old) (chart_of cell.now n) }
    ensures out_after { out.new ≡ area_by result (chart_of cell.now n) out.old }
{
    if MOST_RECORDS < n {
        return answered(SIZE, 3, 0, 0, 0);
    }
    let m = n - 3;
    let scheme = planned(cell, m, work);
    let plan = scheme.plan;
    if !plan.fits {
        return answered(SIZE, 3, 0, 0, 0);
    }
    let total = plan.total;
    if out.len() < total {
        return answered(ROOM, 0, 0, total, 0);
    }
    put_chart(cell, m, work, scheme.same, out);
    answered(0, 0, 0, total, 0)
}

// A cell of n records whose verdict is r: that refusal, or these codes and the held form.
fn settled(cell: &[u8], n: usize, r: Result<(), Refusal>, out: &mut [u8], work: &[u8]) -> Answer
    requires { Settling cell.now n r work.now }
    ensures value { result ≡ admit_of cell.now (length work.now) (length out.old) }
    ensures out_after { out.new ≡ admit_area cell.now (length work.now) out.old }
{
    if let Err(refusal) = r {
        return of_refusal(1, refusal);
    }
    held_into(cell, n, out, work)
}

// The refusal in reading, or codes 17 to 19, then these.
fn admitted(cell: &[u8], out: &mut [u8], work: &mut [u8]) -> Answer
    ensures value { result ≡ admit_of cell.now (length work.old) (length out.old) }
    ensures out_after { out.new ≡ admit_area cell.now (length work.old) out.old }
{
    match cell_read(cell, work) {
        Ok(n) => {
            let r = cell_verdict(cell, n, work);
            settled(cell, n, r, out, work)
        }
        Err(a) => a,
    }
}

// The held form of a cell into the front of the output. The work area is zero afterwards.
pub fn admit(cell: &[u8], out: &mut [u8], work: &mut [u8]) -> Answer
    ensures value { result ≡ admit_of cell.now (length work.old) (length out.old) }
    ensures out_after { out.new ≡ admit_area cell.now (length work.old) out.old }
    ensures work_after { work.new ≡ replicate (length work.old) 0 }
{
    let a = admitted(cell, out, work);
    clear(work);
    a
}
