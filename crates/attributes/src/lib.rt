// The Value rules of a list of attributes (ATTV, ATTF, NATF) and of a list of FFPT, on the bytes of
// one field without its closing 1E. Promised to the crates above: the first wrong subfield, and which
// labels the list has met, so that a list may go on in a further field. Taken from `entries`: where
// each entry ends; from `headvalues`: which bytes are text.
#![tactic(auto)]

ghost use Rattle.std.specs.Prelude.{◌+◌, ◌≤◌, ◌<◌, false, ◌≡◌, length, take, drop, IfErr};
ghost use Rattle.values.specs.Fault.{told};
ghost use Rattle.entries.specs.Premises.{Whole};
ghost use Rattle.headvalues.specs.Text.{text_good};
ghost use Rattle.attributes.specs.Attributes.{attribute, pointer, label_of, is_removal, value_good, rind_good, comment_of, ffpt_fault};
ghost use Rattle.attributes.specs.Judged.{AttributesJudged};

use entries::{Shape, entry_len_at};
use headvalues::text::text_good_in;
use octets::number::get2;
use table::{offsets, sizes};
use values::fault::Fault;

// The ATTL of the entry of n bytes at `at`.
pub fn label_at(c: &[u8], at: usize, n: usize) -> usize
    requires { (3 ≤ n) × (at + n ≤ length c.now) }
    ensures { (result ≡ label_of (take n (drop at c.now))) × (result < 65536) }
{
    get2(c, at) as usize
}

// Whether the value of the entry of n bytes at `at` is 7F alone.
pub fn is_removal(c: &[u8], at: usize, n: usize) -> bool
    requires { (3 ≤ n) × (at + n ≤ length c.now) }
    ensures { result ≡ is_removal (take n (drop at c.now)) }
{
    n == 4 && c[at + 2] == 127
}

// Whether the value of the entry of n bytes at `at` is one that its list may hold.
fn value_good(c: &[u8], at: usize, n: usize, update: bool, high: bool) -> bool
    requires { (3 ≤ n) × (at + n ≤ length c.now) }
    ensures { result ≡ value_good update high (take n (drop at c.now)) }
{
    if update && is_removal(c, at, n) {
        return true;
    }
    text_good_in(c, at + 2, at + n - 1, high)
}

// The first wrong subfield of a field of attributes. A label that the list has met has the list's
// stamp in the table, so a list that goes on in a further field goes on with the same table and
// stamp, and a new list needs a higher stamp and no clearing.
pub fn attributes_fault(
    c: &[u8],
    update: bool,
    high: bool,
    table: &mut [u32],
    stamp: u32,
) -> Result<(), Fault>
    requires { Whole attribute c.now × (length table.old ≡ 65536) }
    ensures { AttributesJudged update high c.now stamp table.old table.new result }
{
    let mut at: usize = 0;
    // A loop: the step is the entry's own length, which also tells where the entries end.
    loop {
        let n = entry_len_at(
            c,
            at,
            Shape {
                fixed: sizes::ATTV,
                unit: 1,
            },
        );
        if n == 0 {
            return Ok(());
        }
        let label = label_at(c, at, n);
        if table[label] == stamp {
            return Err(Fault { at });
        }
        table[label] = stamp;
        if !value_good(c, at, n, update, high) {
            return Err(Fault { at: at + 2 });
        }
        at += n;
    }
}

// Whether the RIND of the entry of n bytes at `at` is 2 or 3.
fn rind_good(c: &[u8], at: usize, n: usize) -> bool
    requires { (10 ≤ n) × (at + n ≤ length c.now) }
    ensures { result ≡ rind_good (take n (drop at c.now)) }
{
    let rind = c[at + offsets::FFPT_RIND];
    2 <= rind && rind <= 3
}

// Whether the COMT of the entry of n bytes at `at` is text.
fn comment_good(c: &[u8], at: usize, n: usize) -> bool
    requires { (10 ≤ n) × (at + n ≤ length c.now) }
    ensures { result ≡ text_good false (comment_of (take n (drop at c.now))) }
{
    text_good_in(c, at + offsets::FFPT_COMT, at + n - 1, false)
}

// The first wrong subfield of a field of FFPT.
pub fn ffpt_fault(c: &[u8]) -> Result<(), Fault>
    requires { Whole pointer c.now }
    ensures { (result ≡ told (ffpt_fault c.now)) × IfErr result (λ f. f.at < length c.now) }
{
    let mut at: usize = 0;
    // A loop: the step is the entry's own length, which also tells where the entries end.
    loop {
        let n = entry_len_at(
            c,
            at,
            Shape {
                fixed: sizes::FFPT,
                unit: 1,
            },
        );
        if n == 0 {
            return Ok(());
        }
        if !rind_good(c, at, n) {
            return Err(Fault {
                at: at + offsets::FFPT_RIND,
            });
        }
        if !comment_good(c, at, n) {
            return Err(Fault {
                at: at + offsets::FFPT_COMT,
            });
        }
        at += n;
    }
}
