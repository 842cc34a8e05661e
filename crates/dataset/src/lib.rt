// Document 01's rules under "Values" for DSID, on its lent field without the closing 1E: whether its
// subfields fill it, where its texts end, and the first subfield that is wrong; and dates. It takes rules
// and text from `values`.
#![tactic(auto)]

ghost use Rattle.std.specs.Prelude.{◌+◌, ◌≤◌, ◌≡◌, length};
ghost use Rattle.values.specs.Fault.{told};
ghost use Rattle.dataset.specs.Dsid.{dsid_ends, dsid_laid, is_code, codes_at, extension_good, dsnm_good, updn_good, uadt_good, sted_good, pred_good, head_fault, names_fault};
ghost use Rattle.dataset.specs.Dsid.{issue_fault, product_fault, dsid_fault};
ghost use Rattle.dataset.specs.Premises.{Filled, DsidLaid};

use dates::date::date_good;
use headvalues::text::{text_end, text_good_in};
use octets::digits::get_digits;
use octets::number::wide;
use table::offsets;
use values::fault::{Fault, holds};
use values::rule::{digits_within, profile, rcid_good, within};

// Where the six texts of a DSID end, each at its 1F.
#[derive(Clone, Copy)]
pub struct Ends {
    pub dsnm: usize,
    pub edtn: usize,
    pub updn: usize,
    pub psdn: usize,
    pub pred: usize,
    pub comt: usize,
}

pub fn dsid_ends(f: &[u8]) -> Ends
    ensures { result ≡ dsid_ends f.now }
{
    let dsnm = text_end(f, offsets::DSID_DSNM);
    let edtn = text_end(f, dsnm + 1);
    let updn = text_end(f, edtn + 1);
    let psdn = text_end(f, updn + 22);
    let pred = text_end(f, psdn + 1);
    let comt = text_end(f, pred + 4);
    Ends {
        dsnm,
        edtn,
        updn,
        psdn,
        pred,
        comt,
    }
}

// Whether the subfields of a DSID fill the field: it ends where its last text does.
pub fn dsid_laid(f: &[u8]) -> bool
    ensures { result ≡ dsid_laid f.now }
{
    let e = dsid_ends(f);
    e.comt + 1 == f.len()
}

// Whether a byte is one of A-Z 0-9.
fn is_code(b: u8) -> bool
    ensures { result ≡ is_code b }
{
    b.is_ascii_uppercase() || b.is_ascii_digit()
}

// Whether the n bytes from `at` on are.
fn codes_at(f: &[u8], at: usize, n: usize) -> bool
    requires { at + n ≤ length f.now }
    ensures { result ≡ codes_at n f.now at }
{
    for k in 0..n {
        if !is_code(f[at + k]) {
            return false;
        }
    }
    true
}

// Whether the number in DSNM's three last digits may stand: in a cell only 0.
fn extension_good(n: u32, update: bool) -> bool
    ensures { result ≡ extension_good update n }
{
    if update { n <= 999 } else { n == 0 }
}

// Whether the text up to `end` is a DSNM.
fn dsnm_good(f: &[u8], end: usize, update: bool) -> bool
    requires { 19 ≤ length f.now }
    ensures { result ≡ dsnm_good update f.now end }
{
    let long = end == 19;
    let producer = codes_at(f, offsets::DSID_DSNM, 2);
    let usage = wide(f[9]) == 48 + wide(f[offsets::DSID_INTU]);
    let cell = codes_at(f, 10, 5);
    let dot = f[15] == 46;
    let extension = extension_good(get_digits(f, 16, 3), update);
    long & (producer & (usage & (cell & (dot & extension))))
}

// Whether the text is an UPDN: in an update as DSNM has it.
fn updn_good(f: &[u8], from: usize, to: usize, update: bool) -> bool
    requires { (from ≤ to) × (to ≤ length f.now) × (19 ≤ length f.now) }
    ensures { result ≡ updn_good update f.now from to }
{
    if !update {
        return digits_within(f, from, to, 3, 0, 999);
    }
    digits_within(f, from, to, 3, 1, 999) && get_digits(f, 16, 3) == get_digits(f, from, to - from)
}

// Whether the eight bytes from `at` on are an UADT: in a cell a date.
fn uadt_good(f: &[u8], at: usize, update: bool) -> bool
    requires { at + 8 ≤ length f.now }
    ensures { result ≡ uadt_good update f.now at }
{
    if update {
        text_good_in(f, at, at + 8, false)
    } else {
        date_good(f, at)
    }
}

// Whether the four bytes from `at` on are the STED.
fn sted_good(f: &[u8], at: usize) -> bool
    requires { at + 4 ≤ length f.now }
    ensures { result ≡ sted_good f.now at }
{
    &f[at..at + 4] == b"03.1".as_slice()
}

// Whether the text is the PRED.
fn pred_good(f: &[u8], from: usize, to: usize) -> bool
    requires { (from ≤ to) × (to ≤ length f.now) }
    ensures { result ≡ pred_good f.now from to }
{
    &f[from..to] == b"2.0".as_slice()
}

// The fault among RCNM, RCID, EXPP and INTU.
fn head_fault(f: &[u8], update: bool) -> Result<(), Fault>
    requires { 7 ≤ length f.now }
    ensures { result ≡ told (head_fault update f.now) }
{
    holds(f[0] == 10, 0)?;
    holds(rcid_good(f, offsets::RCID), offsets::RCID)?;
    holds(f[offsets::DSID_EXPP] == profile(update), offsets::DSID_EXPP)?;
    holds(
        within(wide(f[offsets::DSID_INTU]), 1, 6),
        offsets::DSID_INTU,
    )
}

// The fault among DSNM, EDTN and UPDN.
fn names_fault(f: &[u8], e: Ends, update: bool) -> Result<(), Fault>
    requires { Filled f.now e }
    ensures { result ≡ told (names_fault update f.now e) }
{
    let edtn = e.dsnm + 1;
    let updn = e.edtn + 1;
    holds(dsnm_good(f, e.dsnm, update), offsets::DSID_DSNM)?;
    holds(digits_within(f, edtn, e.edtn, 4, 1, 9999), edtn)?;
    holds(updn_good(f, updn, e.updn, update), updn)
}

// The fault among UADT, ISDT, STED and PRSP, of which the first begins at `at`.
fn issue_fault(f: &[u8], at: usize, update: bool) -> Result<(), Fault>
    requires { at + 21 ≤ length f.now }
    ensures { result ≡ told (issue_fault update f.now at) }
{
    holds(uadt_good(f, at, update), at)?;
    holds(date_good(f, at + 8), at + 8)?;
    holds(sted_good(f, at + 16), at + 16)?;
    holds(f[at + 20] == 1, at + 20)
}

// The fault among PSDN, PRED, PROF and COMT.
fn product_fault(f: &[u8], e: Ends, update: bool) -> Result<(), Fault>
    requires { Filled f.now e }
    ensures { result ≡ told (product_fault update f.now e) }
{
    let psdn = e.updn + 22;
    let pred = e.psdn + 1;
    let prof = e.pred + 1;
    let comt = e.pred + 4;
    holds(e.psdn == psdn, psdn)?;
    holds(pred_good(f, pred, e.pred), pred)?;
    holds(f[prof] == profile(update), prof)?;
    holds(text_good_in(f, comt, e.comt, false), comt)
}

// The fault of a DSID.
pub fn dsid_fault(f: &[u8], update: bool) -> Result<(), Fault>
    requires { DsidLaid f.now }
    ensures { result ≡ told (dsid_fault update f.now) }
{
    let e = dsid_ends(f);
    head_fault(f, update)?;
    names_fault(f, e, update)?;
    issue_fault(f, e.updn + 1, update)?;
    product_fault(f, e, update)
}
