// The words of the update, marked where their records delete.
ghost use Rattle.std.specs.Prelude.{◌+◌, ◌≡◌};
ghost use Rattle.merge.specs.Words.{with_ruin};
ghost use Rattle.merge.specs.Area.{Standing, Marks};
ghost use Rattle.names.specs.Premises.{Stands};

use crate::turn::mark;
use iso8211::field::{Record, head_of};
use items::identity::ruin_of;
use items::word;
use words::{get, put};

// The word of a record of the update, marked where it deletes.
fn with_ruin(s: &[u8], w: u64) -> u64
    requires { Stands s.now w }
    ensures { result ≡ with_ruin s.now w }
{
    let at = (w % word::NAME_WEIGHT) as usize;
    if ruin_of(&Record {
        file: s,
        at,
        head: head_of(s, at),
    }) == 2
    {
        return mark(w);
    }
    w
}

// The m words from word `from` on, those of the update, marked where they delete.
pub fn mark_deletes(s: &[u8], work: &mut [u8], from: usize, m: usize)
    requires { Standing s.now work.old from m }
    ensures { Marks s.now work.old from m work.new }
{
    for i in 0..m {
        let w = with_ruin(s, get(work, from + i));
        put(work, from + i, w);
    }
}
