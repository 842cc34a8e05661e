// Fields of fixed lengths: identifier fields by their rules, lists of groups by their length alone.
ghost use Rattle.std.specs.Prelude.{◌≤◌, ◌≡◌, length};
ghost use Rattle.values.specs.Vrid.{vrid_fault};
ghost use Rattle.values.specs.Frid.{frid_fault};
ghost use Rattle.fieldfine.specs.Told.{groups_good};
ghost use Rattle.fieldfine.specs.Place.{NoFault, IdentifierField};

use layout::place::START;
use table::{kinds, offsets, sizes};
use values::frid::frid_fault;
use values::rule::{rcid_good, ruin_good, rver_good};
use values::vrid::is_vector;

// Whether n bytes are whole groups of `fixed` bytes, one or more.
pub fn groups_fine(n: usize, fixed: usize) -> bool
    requires { 1 ≤ fixed }
    ensures { result ≡ groups_good fixed n }
{
    if n < 1 {
        return false;
    }
    n % fixed == 0
}

// Whether the values of a VRID are good.
fn vrid_good(c: &[u8], update: bool) -> bool
    requires { length c.now ≡ 8 }
    ensures { NoFault (vrid_fault update c.now) result }
{
    if !is_vector(c[0]) {
        return false;
    }
    if !rcid_good(c, offsets::RCID) {
        return false;
    }
    if !rver_good(c, offsets::VRID_RVER) {
        return false;
    }
    ruin_good(c[offsets::VRID_RUIN], update)
}

// A VRID, its kind where it is declared, behind its 0001, due and fine, else START.
pub fn vrid_field(c: &[u8], marks: &[u8], prev: usize, stage: usize, update: bool) -> usize
    requires { length marks.now ≡ 20 }
    ensures { IdentifierField 8 (vrid_fault update c.now) c.now marks.now prev stage 2 3 result }
{
    if c.len() != sizes::VRID {
        return START;
    }
    if marks[kinds::VRID] != 1 {
        return START;
    }
    if prev != kinds::FIRST {
        return START;
    }
    if stage != 2 {
        return START;
    }
    if !vrid_good(c, update) {
        return START;
    }
    kinds::VRID
}

// A FRID alike.
pub fn frid_field(c: &[u8], marks: &[u8], prev: usize, stage: usize, update: bool) -> usize
    requires { length marks.now ≡ 20 }
    ensures { IdentifierField 12 (frid_fault update c.now) c.now marks.now prev stage 3 10 result }
{
    if c.len() != sizes::FRID {
        return START;
    }
    if marks[kinds::FRID] != 1 {
        return START;
    }
    if prev != kinds::FIRST {
        return START;
    }
    if stage < 2 {
        return START;
    }
    if 3 < stage {
        return START;
    }
    if frid_fault(c, update).is_err() {
        return START;
    }
    kinds::FRID
}
