// Whether the leader of a record is that of the held form.
ghost use Rattle.std.specs.Prelude.{◌+◌, ◌≤◌, ◌<◌, length};
ghost use Rattle.octets.specs.Digits.{none};
ghost use Rattle.iso8211.specs.Field.{Headed};
ghost use Rattle.asheld.specs.Held.{LeadTold, BackTold, FrontTold};

use octets::digits::get_digits;
use octets::number::{get1, get2, get4};

// The bytes " D  ", two spaces and one, as numbers.
const D_SPACED: u32 = 538985504;

const TWO_SPACES: u32 = 8224;

const SPACE: u32 = 32;

// Whether the record's length, a space, D and five spaces stand at `at`.
fn is_lead(s: &[u8], at: usize, size: u32) -> bool
    requires { (size < none) × (at + 12 ≤ length s.now) }
    ensures { LeadTold s.now at size result }
{
    if get_digits(s, at, 5) != size {
        return false;
    }
    if get4(s, at + 5) != D_SPACED {
        return false;
    }
    if get2(s, at + 9) != TWO_SPACES {
        return false;
    }
    get1(s, at + 11) == SPACE
}

// Whether three spaces stand behind the base address.
fn is_back(s: &[u8], at: usize) -> bool
    requires { Headed s.now at }
    ensures { BackTold s.now at result }
{
    if get2(s, at + 17) != TWO_SPACES {
        return false;
    }
    get1(s, at + 19) == SPACE
}

// Whether the leader at `at` is that of the held form, of a record of that size, as far as its digit sizes.
pub fn is_front(s: &[u8], at: usize, size: u32) -> bool
    requires { (size < none) × Headed s.now at }
    ensures { FrontTold s.now at size result }
{
    if !is_lead(s, at, size) {
        return false;
    }
    is_back(s, at)
}
