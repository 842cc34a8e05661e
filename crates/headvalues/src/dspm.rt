// DSPM: datum, units and factors.
ghost use Rattle.std.specs.Prelude.{◌≤◌, ◌≡◌, length};
ghost use Rattle.headvalues.specs.Dspm.{dspm_laid, datum_fault, units_fault, factors_fault, dspm_fault};
ghost use Rattle.values.specs.Fault.{told};
ghost use Rattle.headvalues.specs.Premises.{DspmLaid};

use crate::text::{text_end, text_good_in};
use octets::number::get4;
use table::offsets;
use values::fault::{Fault, holds};
use values::rule::{rcid_good, within};

// "COMF 1 to 10,000,000".
pub const MOST_COMF: u32 = 10000000;

// Whether the subfields of a DSPM fill the field: it ends where its text does.
pub fn dspm_laid(f: &[u8]) -> bool
    ensures { result ≡ dspm_laid f.now }
{
    text_end(f, offsets::DSPM_COMT) + 1 == f.len()
}

// The fault among RCNM, RCID and HDAT.
fn datum_fault(f: &[u8]) -> Result<(), Fault>
    requires { 25 ≤ length f.now }
    ensures { result ≡ told (datum_fault f.now) }
{
    holds(f[0] == 20, 0)?;
    holds(rcid_good(f, offsets::RCID), offsets::RCID)?;
    holds(f[offsets::DSPM_HDAT] == 2, offsets::DSPM_HDAT)
}

// The fault among DUNI, HUNI, PUNI and COUN.
fn units_fault(f: &[u8]) -> Result<(), Fault>
    requires { 25 ≤ length f.now }
    ensures { result ≡ told (units_fault f.now) }
{
    holds(f[offsets::DSPM_DUNI] == 1, offsets::DSPM_DUNI)?;
    holds(f[offsets::DSPM_HUNI] == 1, offsets::DSPM_HUNI)?;
    holds(f[offsets::DSPM_PUNI] == 1, offsets::DSPM_PUNI)?;
    holds(f[offsets::DSPM_COUN] == 1, offsets::DSPM_COUN)
}

// The fault among COMF, SOMF and COMT.
fn factors_fault(f: &[u8]) -> Result<(), Fault>
    requires { DspmLaid f.now }
    ensures { result ≡ told (factors_fault f.now) }
{
    let comf = within(get4(f, offsets::DSPM_COMF), 1, MOST_COMF);
    holds(comf, offsets::DSPM_COMF)?;
    holds(get4(f, offsets::DSPM_SOMF) == 10, offsets::DSPM_SOMF)?;
    let end = text_end(f, offsets::DSPM_COMT);
    let comt = text_good_in(f, offsets::DSPM_COMT, end, false);
    holds(comt, offsets::DSPM_COMT)
}

// The fault of a DSPM.
pub fn dspm_fault(f: &[u8]) -> Result<(), Fault>
    requires { DspmLaid f.now }
    ensures { result ≡ told (dspm_fault f.now) }
{
    datum_fault(f)?;
    units_fault(f)?;
    factors_fault(f)
}
