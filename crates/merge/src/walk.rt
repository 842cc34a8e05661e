// The walk over the items of the result in held order.
ghost use Rattle.std.specs.Prelude.{◌-◌, ◌≤◌, ◌<◌};
ghost use Rattle.merge.specs.Places.{Woof, Headed};

use items::word;
use words::get;

// An item of the result: its word, and where `change` is 1 the word of the record of the update that
// modifies it.
#[derive(Clone, Copy)]
pub struct At {
    pub word: u64,
    pub change: usize,
    pub by: u64,
}

// Item i, where j modifies are behind.
pub fn item_at(work: &[u8], end: usize, count: usize, edits: usize, i: usize, j: usize) -> At
    requires { Woof work.now end count edits × (i < count) × (j ≤ edits) }
    ensures { Headed work.now end count edits i j result }
{
    let word = get(work, i);
    if j == edits {
        return At {
            word,
            change: 0,
            by: 0,
        };
    }
    let by = get(work, end - j - 1);
    if word / word::NAME_WEIGHT == by / word::NAME_WEIGHT {
        return At {
            word,
            change: 1,
            by,
        };
    }
    At {
        word,
        change: 0,
        by: 0,
    }
}
