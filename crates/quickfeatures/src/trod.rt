// An edge of an area, looked up where it is guessed.
ghost use Rattle.std.specs.Prelude.{◌≤◌, length};
ghost use Rattle.names.specs.Premises.{Noted};
ghost use Rattle.quickfeatures.specs.Quick.{SpatialTold};
ghost use Rattle.quickfeatures.specs.Trod.{TrodTold, TrodAt};

use crate::spatial::index_behind;
use items::word;
use lookups::lookup::{index_near, name_in};
use lookups::starts::{Starts, start_for};
use octets::number::wide;
use ring::step::{Step, ends_at};
use shape::spatial::spatial_good;
use table::{offsets, sizes};

// The index of the edge that an FSPT names, if the FSPT is one that an area wants. `near` may be its
// index. It is `spatial_near` for an area, with one caller, so that the compiler puts it into the walk.
fn edge_near(
    e: &[u8],
    work: &[u8],
    m: usize,
    v: usize,
    near: usize,
    starts: Starts,
) -> Option<usize>
    requires { (8 ≤ length e.now) × Noted work.now m v }
    ensures { SpatialTold e.now 3 work.now m result }
{
    if !spatial_good(e, 3) {
        return None;
    }
    let name = name_in(e);
    let start = start_for(starts, name);
    index_near(work, 0, m, name, near, start)
}

// The step along the edge of an FSPT and the index behind that of the edge, if the FSPT is one that an
// area wants and names a record.
fn step_near(
    e: &[u8],
    work: &[u8],
    m: usize,
    v: usize,
    near: usize,
    starts: Starts,
) -> Option<(Step, usize)>
    requires { (8 ≤ length e.now) × Noted work.now m v }
    ensures { TrodTold e.now work.now m v result }
{
    let i = edge_near(e, work, m, v, near, starts)?;
    let next = index_behind(i, m);
    let ends = ends_at(work, m, v, i);
    let begin = (ends / word::BEGIN_WEIGHT) as u32;
    let end = (ends % word::BEGIN_WEIGHT) as u32;
    let usage = wide(e[offsets::FSPT_USAG]);
    if e[offsets::FSPT_ORNT] == 2 {
        let back = Step {
            from: end,
            to: begin,
            usage,
        };
        return Some((back, next));
    }
    let along = Step {
        from: begin,
        to: end,
        usage,
    };
    Some((along, next))
}

// The same of the FSPT at i, if one stands there before `to`.
pub fn trod_at(
    s: &[u8],
    i: usize,
    to: usize,
    work: &[u8],
    m: usize,
    v: usize,
    near: usize,
    starts: Starts,
) -> Option<(Step, usize)>
    requires { (i ≤ to) × (to ≤ length s.now) × Noted work.now m v }
    ensures { TrodAt s.now i to work.now m v result }
{
    if to - i < sizes::FSPT {
        return None;
    }
    let end = i + sizes::FSPT;
    step_near(&s[i..end], work, m, v, near, starts)
}
