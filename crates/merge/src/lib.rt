// What an update makes of the names of a chart: the words of cell and update, woven into those of the
// result in held order, and the walk over them. It takes the words of a file from `names`; what a word
// stands for is left to the crates above.
#![tactic(auto)]

ghost use Rattle.merge.specs.Woven.{Warp, Wove};

use marks::mark_deletes;
use weave::{settle, weave};

pub mod marks;
pub mod turn;
pub mod walk;
pub mod weave;

pub use walk::At;
pub use weave::Woven;

// Item i, where j modifies are behind.
pub use walk::item_at;

// The n words of the cell and the m of the update, which stand in the second half of the area, woven
// into those of the result, in front; the words of its modifies stand at the end.
pub fn woven(update: &[u8], n: usize, m: usize, work: &mut [u8]) -> Woven
    requires { Warp update.now work.old n m }
    ensures { Wove update.now work.old n m work.new result }
{
    let h = n + m;
    mark_deletes(update, work, h + n, m);
    let r = weave(work, n, m);
    settle(work, h, r.edits);
    r
}
