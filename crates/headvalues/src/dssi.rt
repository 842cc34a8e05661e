// DSSI: structure, lexical levels, and the counts that are 0 in a cell.
ghost use Rattle.std.specs.Prelude.{◌+◌, ◌≤◌, ◌≡◌, length};
ghost use Rattle.values.specs.Fault.{told};
ghost use Rattle.headvalues.specs.Dssi.{none_good, dssi_fault};

use octets::number::get4;
use table::offsets;
use values::fault::{Fault, holds};

// Whether a count may stand: in a cell only 0.
fn none_good(f: &[u8], at: usize, update: bool) -> bool
    requires { at + 4 ≤ length f.now }
    ensures { result ≡ none_good update f.now at }
{
    update || get4(f, at) == 0
}

// The fault of a DSSI.
pub fn dssi_fault(f: &[u8], update: bool) -> Result<(), Fault>
    requires { length f.now ≡ 35 }
    ensures { result ≡ told (dssi_fault update f.now) }
{
    holds(f[0] == 2, 0)?;
    holds(f[offsets::DSSI_AALL] <= 1, offsets::DSSI_AALL)?;
    holds(f[offsets::DSSI_NALL] <= 1, offsets::DSSI_NALL)?;
    holds(none_good(f, offsets::DSSI_NOCR, update), offsets::DSSI_NOCR)?;
    holds(none_good(f, offsets::DSSI_NOFA, update), offsets::DSSI_NOFA)
}
