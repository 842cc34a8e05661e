// A list edited by its control.
ghost use Rattle.std.specs.Prelude.{◌+◌, ◌-◌, ◌≤◌, ◌≡◌, length, take, drop, IfSome};
ghost use mathlib.Core.List.{◌++◌, flatten};
ghost use Rattle.octets.specs.Area.{Wrote};
ghost use Rattle.entries.specs.Entries.{entries_of};
ghost use Rattle.entries.specs.Premises.{Sound, place};
ghost use Rattle.edits.specs.Control.{edited_by, Allowed};
ghost use Rattle.edits.specs.Lists.{list_allowed, list_edited};
ghost use Rattle.splice.specs.Given.{numbers_of, option_of, Given};
ghost use Rattle.splice.specs.Put.{ListPut, Two};

use crate::control::{Control, gone_of, is_allowed};
use entries::{Shape, extent_of, place_of};
use octets::area::copy;

// The bytes of `src` between two places.
pub fn copy_part(src: &[u8], from: usize, to: usize, out: &mut [u8], at: usize) -> usize
    requires { (from ≤ to) × (to ≤ length src.now) × (at + (to - from) ≤ length out.old) }
    ensures { Wrote out.old at (take (to - from) (drop from src.now)) out.new result × (result ≡ at + (to - from)) }
{
    copy(&src[from..to], out, at)
}

// The bytes of `held` before `from`, those brought, and those of `held` from `to` on.
fn put_parts(
    held: &[u8],
    brought: &[u8],
    from: usize,
    to: usize,
    out: &mut [u8],
    at: usize,
) -> usize
    requires { (from ≤ to) × (to ≤ length held.now) × (at + (length held.now + length brought.now) ≤ length out.old) }
    ensures { Wrote out.old at (take from held.now ++ (brought.now ++ drop to held.now)) out.new result }
{
    let a = copy_part(held, 0, from, out, at);
    let b = copy(brought, out, a);
    copy_part(held, to, held.len(), out, b)
}

// Where entry k + g starts, entry k starting at `from`: g entries on from there.
fn place_behind(held: &[u8], sh: Shape, from: usize, k: usize, g: usize) -> usize
    requires { Sound sh × (from ≡ place sh k held.now) × (from ≤ length held.now) }
    ensures { (result ≡ place sh (k + g) held.now) × (result ≤ length held.now) }
{
    let n = held.len();
    from + place_of(&held[from..n], sh, g)
}

// The list edited by a control that may act on it.
fn put_edited(
    held: &[u8],
    brought: &[u8],
    sh: Shape,
    c: Control,
    out: &mut [u8],
    at: usize,
) -> usize
    requires { Two sh held.now brought.now × Given c × Allowed (numbers_of c) (length (entries_of sh held.now)) (length (entries_of sh brought.now))
        × (at + (length held.now + length brought.now) ≤ length out.old) }
    ensures { Wrote out.old at (flatten (edited_by (numbers_of c) (entries_of sh held.now) (entries_of sh brought.now)))
        out.new result }
{
    let first = c.index - 1;
    let from = place_of(held, sh, first);
    let to = place_behind(held, sh, from, first, gone_of(c));
    put_parts(held, brought, from, to, out, at)
}

// Whether the control may act on the list.
pub fn list_allowed(held: &[u8], brought: &[u8], sh: Shape, control: Option<Control>) -> bool
    requires { Two sh held.now brought.now × IfSome control Given }
    ensures { result ≡ list_allowed (option_of control) (length (entries_of sh held.now)) (length (entries_of sh brought.now)) }
{
    let all = extent_of(held, sh);
    let new = extent_of(brought, sh);
    let m = all.count;
    let n = new.count;
    is_allowed(control, m, n)
}

// The list edited by its control, written from `at` on: where it ends; none where the control may not
// act.
pub fn put_spliced(
    held: &[u8],
    brought: &[u8],
    sh: Shape,
    control: Option<Control>,
    out: &mut [u8],
    at: usize,
) -> Option<usize>
    requires { Two sh held.now brought.now × IfSome control Given × (at + (length held.now + length brought.now) ≤ length out.old) }
    ensures { ListPut (list_allowed (option_of control) (length (entries_of sh held.now)) (length (entries_of sh brought.now)))
        (flatten (list_edited (option_of control) (entries_of sh held.now) (entries_of sh brought.now))) out.old at out.new result }
{
    if !list_allowed(held, brought, sh, control) {
        return None;
    }
    match control {
        Some(c) => Some(put_edited(held, brought, sh, c, out, at)),
        None => Some(copy(held, out, at)),
    }
}
