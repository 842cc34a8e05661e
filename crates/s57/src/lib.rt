// The calls for a host program in C, on numbers and byte slices: the code is returned, and an answer
// area of exactly 16 bytes is filled. Judge comes from `judging`, Admit from `loader`, Apply from
// `apply`. Every call accepts all bytes and all areas; the work area is zero afterwards, and after a
// refusal the output is as it was. The archive of this crate is what a host links.
#![tactic(auto)]

ghost use Rattle.s57.specs.Returned.{Judged, Admitted, Applied};

use answers::sixteen::put_answer;
use apply::apply;
use judging::judge::judge;
use loader::admit::admit;

#[unsafe(no_mangle)]
pub extern "C" fn s57_judge(cell: &[u8], work: &mut [u8], answer: &mut [u8]) -> u32
    ensures { Judged cell.now work.old answer.old answer.new work.new result }
{
    let judged = judge(cell, work);
    put_answer(judged, answer);
    judged.code
}

#[unsafe(no_mangle)]
pub extern "C" fn s57_admit(cell: &[u8], out: &mut [u8], work: &mut [u8], answer: &mut [u8]) -> u32
    ensures { Admitted cell.now out.old work.old answer.old out.new answer.new work.new result }
{
    let admitted = admit(cell, out, work);
    put_answer(admitted, answer);
    admitted.code
}

#[unsafe(no_mangle)]
pub extern "C" fn s57_apply(
    cell: &[u8],
    update: &[u8],
    out: &mut [u8],
    work: &mut [u8],
    answer: &mut [u8],
) -> u32
    ensures { Applied cell.now update.now out.old work.old answer.old out.new answer.new
        work.new result }
{
    let applied = apply(cell, update, out, work);
    put_answer(applied, answer);
    applied.code
}
