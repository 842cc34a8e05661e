// Codes 4 to 8 of a framed file.
ghost use Rattle.std.specs.Prelude.{◌-◌, ◌*◌, ◌≤◌, true, false, ◌≡◌, length, Ok};
ghost use Rattle.words.specs.Words.{words_in};
ghost use Rattle.words.specs.Order.{sorted};
ghost use Rattle.names.specs.NameWords.{name_words};
ghost use Rattle.names.specs.Premises.{Readable, HeldIn};
ghost use Rattle.names.specs.Names.{first_item, twice_of, met_twice};
ghost use Rattle.answers.specs.Answer.{outcome};
ghost use Rattle.reader.specs.Reader.{cell_fault, update_fault};
ghost use Rattle.chart.specs.Before.{ReadTo};
ghost use Rattle.reader.specs.Lent.{NamesLent, ComeIn};

use answers::Refusal;
use answers::codes::{COUNTS, TWICE};
use answers::refusal::refuse;
use chart::read::{Reached, read_fault, read_fault_from, start_at};
use counted::counts::counts_good;
use iso8211::field::record_end;
use names::Repeat;
use names::order::order;
use names::twice::twice;

// The first name met twice, found by sorting the names in the work area; their words stay there, in
// held order.
fn repeated(s: &[u8], n: usize, update: bool, work: &mut [u8]) -> Option<Repeat>
    requires { Readable update s.now n × (8 * n ≤ length work.old) }
    ensures value { result ≡ met_twice (twice_of update s.now n) }
    ensures update_after { words_in work.new 0 (n - first_item update) ≡ sorted (name_words update s.now n) }
{
    order(s, n, update, work);
    twice(s, n, update, work)
}

// A cell's codes 4 to 8, where the records before the one reached are known to be good. One without any
// has left the words of its items, in held order, in the work area.
pub fn cell_fault_from(s: &[u8], n: usize, from: Reached, work: &mut [u8]) -> Result<(), Refusal>
    requires { NamesLent s.now n work.old × ReadTo false s.now n from }
    ensures value { result ≡ outcome (cell_fault s.now n) }
    ensures held_in { result ≡ Ok tt → HeldIn s.now n work.new }
{
    read_fault_from(s, n, from, false)?;
    if let Some(t) = repeated(s, n, false, work) {
        return Err(refuse(TWICE, t.index, t.offset));
    }
    if !counts_good(s, n) {
        return Err(refuse(COUNTS, 1, record_end(s, 0)));
    }
    Ok(())
}

// The same from record 1 on.
pub fn cell_fault(s: &[u8], n: usize, work: &mut [u8]) -> Result<(), Refusal>
    requires { NamesLent s.now n work.old }
    ensures value { result ≡ outcome (cell_fault s.now n) }
    ensures held_in { result ≡ Ok tt → HeldIn s.now n work.new }
{
    cell_fault_from(s, n, start_at(record_end(s, 0)), work)
}

// An update's codes 4 to 7. One without any has left the words of its records there, by name ascending.
pub fn update_fault(s: &[u8], n: usize, work: &mut [u8]) -> Result<(), Refusal>
    requires { NamesLent s.now n work.old }
    ensures value { result ≡ outcome (update_fault s.now n) }
    ensures come_in { result ≡ Ok tt → ComeIn s.now n work.new }
{
    read_fault(s, n, true)?;
    if let Some(t) = repeated(s, n, true, work) {
        return Err(refuse(TWICE, t.index, t.offset));
    }
    Ok(())
}
