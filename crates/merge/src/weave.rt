// The words of the result.
ghost use Rattle.std.specs.Prelude.{◌+◌, ◌-◌, ◌*◌, ◌≤◌, ◌<◌, length};
ghost use Rattle.merge.specs.Area.{Halves, Weaves, SetDown, Settled};

use crate::turn::{Turn, taken};
use words::{get, put};

// How many words the result has, and how many of its items the update modifies.
#[derive(Drop)]
pub struct Woven {
    pub count: usize,
    pub edits: usize,
}

// The words that a turn gives, written; one that is not meant is written over later, or lies between.
fn set_down(work: &mut [u8], h: usize, count: usize, edits: usize, t: Turn)
    requires { (count + edits < h) × (8 * h ≤ length work.old) }
    ensures { SetDown work.old h count edits t work.new }
{
    put(work, h - 1 - edits, t.by);
    put(work, count, t.word);
}

// The n words of the cell and the m of the update, which stand in the second half of the area, woven
// into the words of the result, in the first half.
pub fn weave(work: &mut [u8], n: usize, m: usize) -> Woven
    requires { Halves work.old n m }
    ensures { Weaves work.old n m work.new result }
{
    let h = n + m;
    let mut i: usize = 0;
    let mut j: usize = 0;
    let mut count: usize = 0;
    let mut edits: usize = 0;
    // A while: a turn takes a word of the one, of the other or of both.
    while i + j < h {
        let t = taken(work, h + i, n - i, h + n + j, m - j);
        set_down(work, h, count, edits, t);
        i += t.x;
        j += t.y;
        count += t.keep;
        edits += t.change;
    }
    Woven { count, edits }
}

// The words of the modifies, at the end of the first half of the area, copied to the end of the second.
pub fn settle(work: &mut [u8], h: usize, edits: usize)
    requires { (16 * h ≤ length work.old) × (edits ≤ h) }
    ensures { Settled work.old h edits work.new }
{
    // Word by word, since `copy_from_slice` would want the C library's memmove.
    for i in 0..edits {
        let w = get(work, h - 1 - i);
        put(work, 2 * h - 1 - i, w);
    }
}
