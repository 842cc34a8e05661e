// FRID: the identifier of a feature record.
ghost use Rattle.std.specs.Prelude.{◌≡◌, length};
ghost use Rattle.values.specs.Fault.{told};
ghost use Rattle.values.specs.Frid.{prim_good, frid_fault};

use crate::class::objl_good;
use crate::fault::{Fault, holds};
use crate::rule::{rcid_good, ruin_good, rver_good};
use octets::number::get2;
use table::offsets;

// Whether a PRIM is point, line, area or none.
fn prim_good(prim: u8) -> bool
    ensures { result ≡ prim_good prim }
{
    if prim == 1 {
        return true;
    }
    if prim == 2 {
        return true;
    }
    if prim == 3 {
        return true;
    }
    prim == 255
}

// The fault of a FRID.
pub fn frid_fault(f: &[u8], update: bool) -> Result<(), Fault>
    requires { length f.now ≡ 12 }
    ensures { result ≡ told (frid_fault update f.now) }
{
    holds(f[0] == 100, 0)?;
    holds(rcid_good(f, offsets::RCID), offsets::RCID)?;
    holds(prim_good(f[offsets::FRID_PRIM]), offsets::FRID_PRIM)?;
    holds(objl_good(get2(f, offsets::FRID_OBJL)), offsets::FRID_OBJL)?;
    holds(rver_good(f, offsets::FRID_RVER), offsets::FRID_RVER)?;
    holds(ruin_good(f[offsets::FRID_RUIN], update), offsets::FRID_RUIN)
}
