// Apply: a cell and an update; the held form of the result, or the one refusal in document 01's order.
// It takes from `bothonce` the one pass over each file that tells whether both are readable; where
// they aren't known to be, the stages of reading from `reader` and `readboth`; and codes 9 to 16 and
// the held form of the result from `amending`. What it promises is `apply_of` and `apply_area` of
// `loader`.
#![tactic(auto)]

ghost use Rattle.std.specs.Prelude.{◌≡◌, Ok, length, replicate};
ghost use Rattle.reader.specs.Reader.{front_of};
ghost use Rattle.loader.specs.Apply.{apply_of, apply_area};

use amending::changed;
use answers::Answer;
use bothonce::both::both_once;
use checked::applied;
use octets::area::clear;
use reader::front::opened;

pub mod checked;

// An opened cell of n records, and an update that is still to be opened.
fn update_opened(cell: &[u8], n: usize, update: &[u8], out: &mut [u8], work: &mut [u8]) -> Answer
    requires { front_of 1 cell.now ≡ Ok n }
    ensures value { result ≡ apply_of cell.now update.now (length work.old) (length out.old) }
    ensures out_after { out.new ≡ apply_area cell.now update.now (length work.old) out.old }
{
    match opened(update, 2) {
        Ok(m) => applied(cell, n, update, m, out, work),
        Err(a) => a,
    }
}

// A cell and an update that are read again, stage by stage, for the one refusal.
fn applied_again(cell: &[u8], update: &[u8], out: &mut [u8], work: &mut [u8]) -> Answer
    ensures value { result ≡ apply_of cell.now update.now (length work.old) (length out.old) }
    ensures out_after { out.new ≡ apply_area cell.now update.now (length work.old) out.old }
{
    match opened(cell, 1) {
        Ok(n) => update_opened(cell, n, update, out, work),
        Err(a) => a,
    }
}

// What comes of the two: in one pass over each where that suffices.
fn applied_once(cell: &[u8], update: &[u8], out: &mut [u8], work: &mut [u8]) -> Answer
    ensures value { result ≡ apply_of cell.now update.now (length work.old) (length out.old) }
    ensures out_after { out.new ≡ apply_area cell.now update.now (length work.old) out.old }
{
    match both_once(cell, update, work) {
        Some((n, m)) => changed(cell, n, update, m, work, out),
        None => applied_again(cell, update, out, work),
    }
}

// The held form of what the update makes of the cell, into the front of the output. The work area is
// zero afterwards.
pub fn apply(cell: &[u8], update: &[u8], out: &mut [u8], work: &mut [u8]) -> Answer
    ensures value { result ≡ apply_of cell.now update.now (length work.old) (length out.old) }
    ensures out_after { out.new ≡ apply_area cell.now update.now (length work.old) out.old }
    ensures work_after { work.new ≡ replicate (length work.old) 0 }
{
    let a = applied_once(cell, update, out, work);
    clear(work);
    a
}
