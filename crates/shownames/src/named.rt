// The record that has a name, by the words of a file's vectors and features.
ghost use Rattle.std.specs.Prelude.{◌+◌, ◌*◌, ◌≤◌, ◌<◌, ◌≡◌, length};
ghost use Rattle.words.specs.Words.{words_in};
ghost use Rattle.words.specs.Order.{Sorted};
ghost use Rattle.items.specs.Identity.{name_from};
ghost use Rattle.items.specs.Premises.{name_bound};
ghost use Rattle.shownames.specs.Premises.{is_class, place_named};

use items::identity::rank_of;
use items::word;
use lookups::lookup::lookup;

// Whether a vector or a feature can have this RCNM. A name's word has the class by its rank, in which
// any other class would pass for a feature's.
fn is_class(rcnm: u32) -> bool
    ensures { result ≡ is_class rcnm }
{
    if rcnm == 110 {
        return true;
    }
    if rcnm == 120 {
        return true;
    }
    if rcnm == 130 {
        return true;
    }
    rcnm == 100
}

// A name as a number.
fn name_from(rcnm: u32, rcid: u32) -> u64
    ensures { (result ≡ name_from rcnm rcid) × (result < name_bound) }
{
    rank_of(rcnm) * word::CLASS_WEIGHT + rcid as u64
}

// The place of the record of this name, by the m words from word `from` on.
pub fn place_named(work: &[u8], from: usize, m: usize, rcnm: u32, rcid: u32) -> Option<usize>
    requires { (8 * (from + m) ≤ length work.now) × Sorted (words_in work.now from m) }
    ensures { result ≡ place_named (words_in work.now from m) rcnm rcid }
{
    if !is_class(rcnm) {
        return None;
    }
    lookup(work, from, m, name_from(rcnm, rcid))
}
