// What an update makes of a cell, both read: `changed` gives codes 9 to 16, the areas in which the record
// of a changed object is built, then what `resultstages` gives. It takes codes 9 to 12 from `follow` and
// 13 to 16 from `amendments`.
#![tactic(auto)]

ghost use Rattle.std.specs.Prelude.{◌≡◌, length, replicate};
ghost use Rattle.resultitems.specs.Able.{Rooms};
ghost use Rattle.loader.specs.Admit.{area_by};
ghost use Rattle.loader.specs.Apply.{result_of};
ghost use Rattle.resultstages.specs.Stages.{amended_answer, change_answer, Amending, BothReady};

use amendments::fault::amendments_fault;
use answers::Answer;
use answers::answer::of_refusal;
use answers::refusal::refuse;
use follow::{follow_code, header_at};
use resultstages::merged::merged;

// Codes 13 to 16, then what comes of the two files.
fn amended(
    cell: &[u8],
    n: usize,
    update: &[u8],
    m: usize,
    work: &mut [u8],
    join: &mut [u8],
    table: &mut [u32],
    room: &mut [u8],
    out: &mut [u8],
) -> Answer
    requires { Amending cell.now n update.now m work.old × Rooms join.old table.old room.old }
    ensures value { result ≡ amended_answer cell.now n update.now m (length out.old) }
    ensures out_after { out.new ≡ area_by result (result_of cell.now n update.now m) out.old }
{
    let held = n - 3;
    let half = held + (m - 2);
    if let Err(r) = amendments_fault(cell, update, m, work, half, held, join, table, room) {
        return of_refusal(2, r);
    }
    merged(cell, n, update, m, work, join, table, room, out)
}

// Where two lists stand side by side.
fn wide_join() -> [u8; 199998]
    ensures { result ≡ replicate 199998 0 }
{
    [0u8; 199998]
}

// The table of labels.
fn blank_table() -> [u32; 65536]
    ensures { result ≡ replicate 65536 0 }
{
    [0u32; 65536]
}

// Where a record is built.
fn wide_room() -> [u8; 200500]
    ensures { result ≡ replicate 200500 0 }
{
    [0u8; 200500]
}

// The same, in areas of its own.
fn amended_apart(
    cell: &[u8],
    n: usize,
    update: &[u8],
    m: usize,
    work: &mut [u8],
    out: &mut [u8],
) -> Answer
    requires { Amending cell.now n update.now m work.old }
    ensures value { result ≡ amended_answer cell.now n update.now m (length out.old) }
    ensures out_after { out.new ≡ area_by result (result_of cell.now n update.now m) out.old }
{
    let mut join = wide_join();
    let mut table = blank_table();
    let mut room = wide_room();
    amended(
        cell, n, update, m, work, &mut join, &mut table, &mut room, out,
    )
}

// Codes 9 to 12, then these.
pub fn changed(
    cell: &[u8],
    n: usize,
    update: &[u8],
    m: usize,
    work: &mut [u8],
    out: &mut [u8],
) -> Answer
    requires { BothReady cell.now n update.now m work.old }
    ensures value { result ≡ change_answer cell.now n update.now m (length out.old) }
    ensures out_after { out.new ≡ area_by result (result_of cell.now n update.now m) out.old }
{
    let code = follow_code(cell, update);
    if code != 0 {
        return of_refusal(2, refuse(code, 1, header_at(update)));
    }
    amended_apart(cell, n, update, m, work, out)
}
