// The last stages: the result woven, judged, and written.
ghost use Rattle.std.specs.Prelude.{◌≡◌, length};
ghost use Rattle.resultitems.specs.Able.{Rooms};
ghost use Rattle.loader.specs.Admit.{held_answer, area_by};
ghost use Rattle.loader.specs.Apply.{result_of};
ghost use Rattle.resultstages.specs.Stages.{result_answer, renewed_in, Resulting, Judging, Merging};

use answers::Answer;
use answers::answer::{answered, of_refusal};
use answers::codes::{ROOM, SIZE};
use layout::general::comf_of;
use merge::woven;
use renewal::write::{planned, put_result};
use result::result_fault;

// Codes 20 and 21, then the held form of a result whose words stand in the work area.
fn result_into(
    cell: &[u8],
    update: &[u8],
    work: &[u8],
    end: usize,
    count: usize,
    edits: usize,
    join: &mut [u8],
    table: &mut [u32],
    room: &mut [u8],
    out: &mut [u8],
) -> Answer
    requires { Resulting cell.now update.now work.now end count edits × Rooms join.old table.old room.old }
    ensures value { result ≡ held_answer (length out.old) (renewed_in cell.now update.now work.now end count edits) }
    ensures out_after { out.new ≡ area_by result (renewed_in cell.now update.now work.now end count edits) out.old }
{
    if 65533 < count {
        return answered(SIZE, 3, 0, 0, 0);
    }
    let scheme = planned(cell, update, work, end, count, edits, join, table, room);
    let plan = scheme.plan;
    if !plan.fits {
        return answered(SIZE, 3, 0, 0, 0);
    }
    let total = plan.total;
    if out.len() < total {
        return answered(ROOM, 0, 0, total, 0);
    }
    put_result(
        cell,
        update,
        work,
        end,
        count,
        edits,
        scheme.same,
        join,
        table,
        room,
        out,
    );
    answered(0, 0, 0, total, 0)
}

// Codes 17 to 19 of the result, then these.
fn judged_into(
    cell: &[u8],
    n: usize,
    update: &[u8],
    work: &mut [u8],
    end: usize,
    count: usize,
    edits: usize,
    join: &mut [u8],
    table: &mut [u32],
    room: &mut [u8],
    out: &mut [u8],
) -> Answer
    requires { Judging cell.now n update.now work.old end count edits × Rooms join.old table.old room.old }
    ensures value { result ≡ result_answer (length out.old) (renewed_in cell.now update.now work.old end count edits) }
    ensures out_after { out.new ≡ area_by result (renewed_in cell.now update.now work.old end count edits) out.old }
{
    let comf = comf_of(cell, n);
    if let Err(r) = result_fault(
        cell, update, comf, work, end, count, edits, join, table, room,
    ) {
        return of_refusal(3, r);
    }
    result_into(
        cell, update, work, end, count, edits, join, table, room, out,
    )
}

// The words of the result woven of those of the two files, then these.
pub fn merged(
    cell: &[u8],
    n: usize,
    update: &[u8],
    m: usize,
    work: &mut [u8],
    join: &mut [u8],
    table: &mut [u32],
    room: &mut [u8],
    out: &mut [u8],
) -> Answer
    requires { Merging cell.now n update.now m work.old × Rooms join.old table.old room.old }
    ensures value { result ≡ result_answer (length out.old) (result_of cell.now n update.now m) }
    ensures out_after { out.new ≡ area_by result (result_of cell.now n update.now m) out.old }
{
    let i = n - 3;
    let j = m - 2;
    let end = 2 * (i + j);
    let w = woven(update, i, j, work);
    judged_into(
        cell, n, update, work, end, w.count, w.edits, join, table, room, out,
    )
}
