// Document 01's layout of a record: which fields stand in it, in which order, each declared in record
// 0 and filled by its subfields. It promises the crates above what kinds of fields a record without
// fault has and that each holds its subfields; it takes framed records from `iso8211`, the table of
// fields from `table`, lists from `entries`, and the two fields of several texts from `dataset` (DSID)
// and `headvalues` (DSPM). `general` reads the general records: the levels (`levels_at`), COMF
// (`comf_of`).
#![tactic(auto)]

pub mod fill;
pub mod general;
pub mod place;

ghost use Rattle.std.specs.Prelude.{◌+◌, ◌≤◌, ◌≡◌, length, IfErr};
ghost use Rattle.values.specs.Fault.{told_place};
ghost use Rattle.table.specs.Table.{kind_count};
ghost use Rattle.iso8211.specs.Premises.{RecordIn};
ghost use Rattle.layout.specs.Layout.{field_laid, layout_fault};

use crate::fill::filled;
use crate::place::{START, may_end, placed};
use iso8211::field::{Field, Record, head_of, record_end};
use table::kind_of;
use values::fault::Fault;

// The levels of the record of DSID and DSSI at `at`.
pub use general::levels_at;

// COMF of a cell of n records.
pub use general::comf_of;

// Whether a field behind one of kind `prev` is laid out well: the marks say what record 0 declares.
pub fn field_laid(s: &[u8], marks: &[u8], update: bool, stage: usize, prev: usize, f: Field) -> bool
    requires { (f.start + f.length ≤ length s.now) × (1 ≤ f.length) × (length marks.now ≡ kind_count) }
    ensures { result ≡ field_laid update stage marks.now s.now prev f }
{
    let k = kind_of(f.tag);
    let from = f.start;
    let to = from + (f.length - 1);
    if !placed(update, stage, prev, k) {
        return false;
    }
    if marks[k] != 1 {
        return false;
    }
    filled(&s[from..to], k)
}

// Where the layout of the record at `at` is broken first: the start of the wrong field, or the
// record's end where a field is missing. `stage` says which record is due: 0 that of DSID, 1 that of
// DSPM, 2 a vector or a feature, 3 a feature.
pub fn layout_fault(
    s: &[u8],
    at: usize,
    marks: &[u8],
    update: bool,
    stage: usize,
) -> Result<(), Fault>
    requires { RecordIn s.now at × (length marks.now ≡ kind_count) }
    ensures { (result ≡ told_place (layout_fault update stage marks.now s.now at)) × IfErr result (λ f. f.at ≤ length s.now) }
{
    let head = head_of(s, at);
    let record = Record { file: s, at, head };
    let count = head.count;
    let mut prev: usize = START;
    let mut due = at + head.base;
    for j in 0..count {
        let f = record.field_on(j, due);
        if !field_laid(s, marks, update, stage, prev, f) {
            return Err(Fault { at: f.start });
        }
        prev = kind_of(f.tag);
        due = f.start + f.length;
    }
    if !may_end(prev) {
        return Err(Fault {
            at: record_end(s, at),
        });
    }
    Ok(())
}
