// VRID: the identifier of a vector record.
ghost use Rattle.std.specs.Prelude.{◌≡◌, length};
ghost use Rattle.values.specs.Fault.{told};
ghost use Rattle.values.specs.Vrid.{is_vector, vrid_fault};

use crate::fault::{Fault, holds};
use crate::rule::{rcid_good, ruin_good, rver_good};
use table::offsets;

// Whether an RCNM is of a vector: isolated node, connected node or edge.
pub fn is_vector(rcnm: u8) -> bool
    ensures { result ≡ is_vector rcnm }
{
    if rcnm == 110 {
        return true;
    }
    if rcnm == 120 {
        return true;
    }
    rcnm == 130
}

// The fault of a VRID.
pub fn vrid_fault(f: &[u8], update: bool) -> Result<(), Fault>
    requires { length f.now ≡ 8 }
    ensures { result ≡ told (vrid_fault update f.now) }
{
    holds(is_vector(f[0]), 0)?;
    holds(rcid_good(f, offsets::RCID), offsets::RCID)?;
    holds(rver_good(f, offsets::VRID_RVER), offsets::VRID_RVER)?;
    holds(ruin_good(f[offsets::VRID_RUIN], update), offsets::VRID_RUIN)
}
