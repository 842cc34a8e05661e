// Codes 4 to 8 of a framed cell and 4 to 7 of a framed update. Two files without any leave the words of
// their names side by side in the work area.
ghost use Rattle.std.specs.Prelude.{◌+◌, ◌-◌, ◌*◌, ◌≤◌, true, false, ◌≡◌, length, take, Ok};
ghost use Rattle.words.specs.Words.{words_in};
ghost use Rattle.words.specs.Order.{sorted};
ghost use Rattle.names.specs.NameWords.{name_words};
ghost use Rattle.answers.specs.Answer.{outcome};
ghost use Rattle.reader.specs.Reader.{cell_fault, update_fault, both_fault};
ghost use Rattle.reader.specs.Lent.{FileOpened, BothOpened, BothIn};

use answers::answer::{answer_of, of_refusal};
use answers::{Answer, Refusal};
use reader::fault::{cell_fault, update_fault};

// The cell's codes, its words from word i of the work area on.
fn cell_from(s: &[u8], n: usize, work: &mut [u8], i: usize) -> Result<(), Refusal>
    requires { FileOpened s.now n × (8 * (i + n) ≤ length work.old) }
    ensures value { result ≡ outcome (cell_fault s.now n) }
    ensures n_after { result ≡ Ok tt → words_in work.new i (n - 3) ≡ sorted (name_words false s.now n) }
{
    let from = 8 * i;
    cell_fault(s, n, &mut work[from..])
}

// The update's codes, its words from word i of the work area on; those before them stay.
fn update_from(s: &[u8], n: usize, work: &mut [u8], i: usize) -> Result<(), Refusal>
    requires { FileOpened s.now n × (8 * (i + n) ≤ length work.old) }
    ensures value { result ≡ outcome (update_fault s.now n) }
    ensures n_after { result ≡ Ok tt → words_in work.new i (n - 2) ≡ sorted (name_words true s.now n) }
    ensures work_unchanged { take (8 * i) work.new ≡ take (8 * i) work.old }
{
    let from = 8 * i;
    update_fault(s, n, &mut work[from..])
}

// The first half of the work area stays free for what is made of the names.
pub fn both_fault(cell: &[u8], n: usize, update: &[u8], m: usize, work: &mut [u8]) -> Answer
    requires { BothOpened cell.now n update.now m work.old }
    ensures value { result ≡ both_fault cell.now n update.now m }
    ensures both_in { result.code ≡ 0 → BothIn cell.now n update.now m work.new }
{
    let held = n.saturating_sub(3);
    let half = held + m.saturating_sub(2);
    if let Err(r) = cell_from(cell, n, work, half) {
        return of_refusal(1, r);
    }
    answer_of(2, update_from(update, m, work, half + held))
}
