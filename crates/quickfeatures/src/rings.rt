// The edges of an area, followed once: each is one that an area wants and is there, and they run in
// closed rings.
ghost use Rattle.std.specs.Prelude.{◌≤◌, length};
ghost use Rattle.names.specs.Premises.{Noted};
ghost use Rattle.quickfeatures.specs.Trod.{RingsTold};

use crate::trod::trod_at;
use lookups::starts::Starts;
use ring::usage_good;
use table::sizes;

// Whether all is so of the FSPT in the bytes from `from` up to `to`. The next edge is looked for
// behind the last. A ring that has begun did so at `home`, and its next edge is due to start at `due`.
// The edges are trodden in one place, for the first of a ring too, so that the compiler puts that into
// the loop.
pub fn rings_quick(
    s: &[u8],
    from: usize,
    to: usize,
    work: &[u8],
    m: usize,
    v: usize,
    starts: Starts,
) -> bool
    requires { (from ≤ to) × (to ≤ length s.now) × Noted work.now m v }
    ensures { RingsTold s.now from to work.now m v result }
{
    let mut exterior = true;
    let mut near = m;
    let mut i = from;
    // A while: a turn takes a whole ring.
    while sizes::FSPT <= to - i {
        let mut begun = false;
        let mut home: u32 = 0;
        let mut due: u32 = 0;
        // A loop: a ring has as many edges as it takes to come back to where it began.
        loop {
            let Some((t, next)) = trod_at(s, i, to, work, m, v, near, starts) else {
                return false;
            };
            if begun {
                if t.from != due {
                    return false;
                }
            } else {
                home = t.from;
            }
            if !usage_good(exterior, t.usage) {
                return false;
            }
            due = t.to;
            begun = true;
            near = next;
            i += sizes::FSPT;
            if due == home {
                break;
            }
        }
        exterior = false;
    }
    true
}
