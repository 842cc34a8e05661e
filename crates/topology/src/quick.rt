// Whether an item has no fault, quickly. Most have none: only where this says no, the rules are asked
// one by one.
ghost use Rattle.std.specs.Prelude.{◌≤◌};
ghost use Rattle.headvalues.specs.Dspm.{most_comf};
ghost use Rattle.items.specs.Item.{item_at};
ghost use Rattle.items.specs.Premises.{LaidOut, Identified};
ghost use Rattle.names.specs.Premises.{Noted};
ghost use Rattle.quickvectors.specs.Quick.{Quick};

use crate::seen::seen_at;
use iso8211::field::{Record, head_of};
use items::identity::{rank_of, rcnm_of};
use lookups::starts::Starts;
use quickfeatures::feature_quick;
use spans::{Front, front_of};

// Whether the item at `at` has none; where it says no, it may have none all the same. A vector is seen
// as on the way to its note, so that `seen_at` alone walks over its fields.
pub fn is_faultless(
    s: &[u8],
    at: usize,
    comf: u32,
    work: &[u8],
    m: usize,
    v: usize,
    starts: Starts,
) -> bool
    requires { LaidOut s.now at × Identified s.now at × Noted work.now m v × (comf ≤ most_comf) }
    ensures { Quick comf work.now m v (item_at s.now at) result }
{
    let h = head_of(s, at);
    let r = Record {
        file: s,
        at,
        head: h,
    };
    let Front::Feature(id, due) = front_of(&r) else {
        let rank = rank_of(rcnm_of(&r));
        let seen = seen_at(s, at, rank, comf, work, m, starts.connected);
        return seen.clear;
    };
    feature_quick(&r, id, due, work, m, v, starts)
}
