// The values of a record, field by field.
ghost use Rattle.std.specs.Prelude.{◌+◌, ◌≤◌, true, false, cond, ◌≡◌, length};
ghost use Rattle.layout.specs.Layout.{filled};
ghost use Rattle.fieldvalue.specs.Value.{is_attributes};
ghost use Rattle.fieldvalue.specs.Judged.{PlainJudged, FieldJudged, Full, RecordJudged};
ghost use Rattle.answers.specs.Codes.{most_bytes};

use attributes::{attributes_fault, ffpt_fault};
use dataset::dsid_fault;
use headvalues::dspm::dspm_fault;
use headvalues::dssi::dssi_fault;
use iso8211::field::{Record, head_of};
use layout::place::START;
use table::{kind_of, kinds};
use values::fault::Fault;
use values::frid::frid_fault;
use values::vrid::vrid_fault;

// The fault of a field of kind k that is no list of attributes, its content c.
pub fn plain_fault(c: &[u8], k: usize, update: bool) -> Result<(), Fault>
    requires { (filled k c.now ≡ true) × (is_attributes k ≡ false) }
    ensures { PlainJudged update k c.now result }
{
    match k {
        kinds::DSID => dsid_fault(c, update),
        kinds::DSSI => dssi_fault(c, update),
        kinds::DSPM => dspm_fault(c),
        kinds::VRID => vrid_fault(c, update),
        kinds::FRID => frid_fault(c, update),
        kinds::FFPT => ffpt_fault(c),
        _ => Ok(()),
    }
}

// The fault of any field.
fn field_fault(
    c: &[u8],
    k: usize,
    update: bool,
    aall: u32,
    nall: u32,
    table: &mut [u32],
    stamp: u32,
) -> Result<(), Fault>
    requires { (filled k c.now ≡ true) × (length table.old ≡ 65536) }
    ensures { FieldJudged update aall nall k c.now stamp table.old table.new result }
{
    if k == kinds::ATTV {
        return attributes_fault(c, update, false, table, stamp);
    }
    if k == kinds::ATTF {
        return attributes_fault(c, update, aall == 1, table, stamp);
    }
    if k == kinds::NATF {
        return attributes_fault(c, update, nall == 1, table, stamp);
    }
    plain_fault(c, k, update)
}

// The stamp of a list: that of the list before where it goes on, a fresh one where it begins.
fn stamp_of(on: bool, stamp: u32, fresh: u32) -> u32
    ensures { result ≡ cond on stamp fresh }
{
    if on { stamp } else { fresh }
}

// Where the first wrong subfield of the record at `at` starts in the file. A list of attributes that
// begins at field j has the stamp at + j + 1, which no list before it had.
pub fn value_fault(
    s: &[u8],
    at: usize,
    update: bool,
    aall: u32,
    nall: u32,
    table: &mut [u32],
) -> Result<(), Fault>
    requires { Full s.now at × ((length s.now ≤ most_bytes) × (length table.old ≡ 65536)) }
    ensures { RecordJudged update aall nall s.now at table.old table.new result }
{
    let head = head_of(s, at);
    let record = Record { file: s, at, head };
    let count = head.count;
    let mut prev: usize = START;
    let mut stamp = at as u32;
    let mut due = at + head.base;
    for j in 0..count {
        let f = record.field_on(j, due);
        let k = kind_of(f.tag);
        stamp = stamp_of(prev == k, stamp, (at + j + 1) as u32);
        let from = f.start;
        let to = from + (f.length - 1);
        let judged = field_fault(&s[from..to], k, update, aall, nall, table, stamp);
        if let Err(fault) = judged {
            return Err(Fault {
                at: from + fault.at,
            });
        }
        prev = k;
        due = from + f.length;
    }
    Ok(())
}
