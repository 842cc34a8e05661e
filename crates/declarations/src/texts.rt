// The table's labels and formats of each kind, side by side, and a field of record 0 against them.
ghost use Rattle.std.specs.Prelude.{◌≡◌, ◌-◌, ◌≤◌, length, take, drop};
ghost use Rattle.fieldparts.specs.PartsPremises.{Within};
ghost use Rattle.table.specs.Text.{bytes};
ghost use Rattle.table.specs.Table.{row_of, VRID};
ghost use Rattle.declarations.specs.Described.{same_formats};
ghost use Rattle.declarations.specs.Premises.{same_texts};

use fieldparts::descriptive::{Parts, same_bytes};
use formats::{same_formats, write_out};
use table::kinds;

// Whether the bytes from `from` to `to` are a format list and nothing after, and written out the same as
// `formats`.
fn formats_same(field: &[u8], from: usize, to: usize, formats: &[u8]) -> bool
    requires { (from ≤ to) × (to ≤ length field.now) }
    ensures { result ≡ same_formats (take (to - from) (drop from field.now)) formats.now }
{
    let found = write_out(&field[from..to], 0);
    if found.end == 0 {
        return false;
    }
    if found.end != to - from {
        return false;
    }
    same_formats(found, write_out(formats, 0))
}

// Whether a field of these parts has these labels, and formats that written out are the same as these.
fn same_texts(field: &[u8], p: Parts, labels: &[u8], formats: &[u8]) -> bool
    requires { Within field.now p }
    ensures { result ≡ same_texts field.now p labels.now formats.now }
{
    let name = p.name;
    let end = p.labels;
    if !same_bytes(field, name + 1, end, labels) {
        return false;
    }
    formats_same(field, end + 1, field.len() - 1, formats)
}

// The same for what the table has of kind k, a field of a vector or of a feature; past the table, of 0001.
fn item_row(field: &[u8], p: Parts, k: usize) -> bool
    requires { Within field.now p × (VRID ≤ k) }
    ensures { result ≡ same_texts field.now p (bytes (row_of k).labels) (bytes (row_of k).formats) }
{
    match k {
        kinds::VRID => same_texts(field, p, b"RCNM!RCID!RVER!RUIN", b"(b11,b14,b12,b11)"),
        kinds::ATTV => same_texts(field, p, b"*ATTL!ATVL", b"(b12,A)"),
        kinds::VRPC => same_texts(field, p, b"VPUI!VPIX!NVPT", b"(b11,2b12)"),
        kinds::VRPT => same_texts(field, p, b"*NAME!ORNT!USAG!TOPI!MASK", b"(B(40),4b11)"),
        kinds::SGCC => same_texts(field, p, b"CCUI!CCIX!CCNC", b"(b11,2b12)"),
        kinds::SG2D => same_texts(field, p, b"*YCOO!XCOO", b"(2b24)"),
        kinds::SG3D => same_texts(field, p, b"*YCOO!XCOO!VE3D", b"(3b24)"),
        kinds::FRID => same_texts(
            field,
            p,
            b"RCNM!RCID!PRIM!GRUP!OBJL!RVER!RUIN",
            b"(b11,b14,2b11,2b12,b11)",
        ),
        kinds::FOID => same_texts(field, p, b"AGEN!FIDN!FIDS", b"(b12,b14,b12)"),
        kinds::ATTF => same_texts(field, p, b"*ATTL!ATVL", b"(b12,A)"),
        kinds::NATF => same_texts(field, p, b"*ATTL!ATVL", b"(b12,A)"),
        kinds::FFPC => same_texts(field, p, b"FFUI!FFIX!NFPT", b"(b11,2b12)"),
        kinds::FFPT => same_texts(field, p, b"*LNAM!RIND!COMT", b"(B(64),b11,A)"),
        kinds::FSPC => same_texts(field, p, b"FSUI!FSIX!NSPT", b"(b11,2b12)"),
        kinds::FSPT => same_texts(field, p, b"*NAME!ORNT!USAG!MASK", b"(B(40),3b11)"),
        _ => same_texts(field, p, b"", b"(b12)"),
    }
}

// The same for every kind.
pub fn same_row(field: &[u8], p: Parts, k: usize) -> bool
    requires { Within field.now p }
    ensures { result ≡ same_texts field.now p (bytes (row_of k).labels) (bytes (row_of k).formats) }
{
    match k {
        kinds::DSID => same_texts(
            field,
            p,
            b"RCNM!RCID!EXPP!INTU!DSNM!EDTN!UPDN!UADT!ISDT!STED!PRSP!PSDN!PRED!PROF!AGEN!COMT",
            b"(b11,b14,2b11,3A,2A(8),R(4),b11,2A,b11,b12,A)",
        ),
        kinds::DSSI => same_texts(
            field,
            p,
            b"DSTR!AALL!NALL!NOMR!NOCR!NOGR!NOLR!NOIN!NOCN!NOED!NOFA",
            b"(3b11,8b14)",
        ),
        kinds::DSPM => same_texts(
            field,
            p,
            b"RCNM!RCID!HDAT!VDAT!SDAT!CSCL!DUNI!HUNI!PUNI!COUN!COMF!SOMF!COMT",
            b"(b11,b14,3b11,b14,4b11,2b14,A)",
        ),
        _ => item_row(field, p, k),
    }
}
