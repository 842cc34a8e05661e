// The vectors that a feature points to: each FSPT as its primitive wants it, and there.
ghost use Rattle.std.specs.Prelude.{◌≤◌, ◌<◌, length};
ghost use Rattle.names.specs.Premises.{Noted};
ghost use Rattle.quickfeatures.specs.Quick.{SpatialTold, NamesTold};

use lookups::lookup::{index_near, name_in};
use lookups::starts::{Starts, start_for};
use shape::spatial::spatial_good;
use table::sizes;

// The index of the vector that an FSPT names, if the FSPT is one that the primitive wants. `near`
// may be its index.
fn spatial_near(
    e: &[u8],
    prim: u32,
    work: &[u8],
    m: usize,
    v: usize,
    near: usize,
    starts: Starts,
) -> Option<usize>
    requires { (8 ≤ length e.now) × Noted work.now m v }
    ensures { SpatialTold e.now prim work.now m result }
{
    if !spatial_good(e, prim) {
        return None;
    }
    let name = name_in(e);
    let start = start_for(starts, name);
    index_near(work, 0, m, name, near, start)
}

// The index behind index i of m: a guess for the next look-up, which promises nothing.
pub fn index_behind(i: usize, m: usize) -> usize
    requires { i < m }
{
    i + 1
}

// Whether every FSPT in the bytes from `from` up to `to` is one, and there. The next vector is looked
// for behind the last.
pub fn names_quick(
    s: &[u8],
    from: usize,
    to: usize,
    prim: u32,
    work: &[u8],
    m: usize,
    v: usize,
    starts: Starts,
) -> bool
    requires { (from ≤ to) × (to ≤ length s.now) × Noted work.now m v }
    ensures { NamesTold s.now from to prim work.now m result }
{
    let mut near = m;
    for e in s[from..to].chunks_exact(sizes::FSPT) {
        let Some(place) = spatial_near(e, prim, work, m, v, near, starts) else {
            return false;
        };
        near = index_behind(place, m);
    }
    true
}
