// All items of a cell, in the order of their words: how long their records are, and their bytes.
ghost use Rattle.std.specs.Prelude.{◌+◌, ◌≤◌, ◌<◌, ◌≡◌, length};
ghost use Rattle.octets.specs.Area.{Wrote};
ghost use Rattle.words.specs.Words.{words_in};
ghost use Rattle.writing.specs.All.{Words, AllSame, AllMeasured, written_from};

use crate::item::{known_size, put_copy, put_item};
use items::word;
use words::get;

// How many bytes the records have together, and the longest of them.
#[derive(Drop)]
pub struct Sizes {
    pub sum: usize,
    pub most: u32,
}

// These sizes, and whether all records are known to be the held form's, but for their running numbers.
#[derive(Drop)]
pub struct Measured {
    pub sizes: Sizes,
    pub same: bool,
}

// The sizes of the records of the items of m words: for the limits of the held form, and for the
// room that `put_items` and `put_copies` ask for.
pub fn measure(s: &[u8], m: usize, work: &[u8]) -> Measured
    requires { Words s.now m work.now }
    ensures { AllMeasured s.now m work.now result }
{
    let mut sum: usize = 0;
    let mut most: u32 = 0;
    let mut same = true;
    for k in 0..m {
        let w = get(work, k);
        let one = known_size(s, (w % word::NAME_WEIGHT) as usize);
        let size = one.size;
        sum += size as usize;
        most = most.max(size);
        same &= one.same;
    }
    let sizes = Sizes { sum, most };
    Measured { sizes, same }
}

// The records of the items of m words, in the order of the words, from `place` on; the answer is
// where they end. Three records stand before them.
pub fn put_items(s: &[u8], m: usize, work: &[u8], out: &mut [u8], place: usize) -> usize
    requires { Words s.now m work.now × (place + length (written_from 3 s.now (words_in work.now 0 m)) ≤ length out.old) }
    ensures { Wrote out.old place (written_from 3 s.now (words_in work.now 0 m)) out.new result }
{
    let mut next = place;
    for k in 0..m {
        let w = get(work, k);
        next = put_item(
            s,
            (w % word::NAME_WEIGHT) as usize,
            out,
            next,
            (k + 3) as u32,
        );
    }
    next
}

// The same where all records are known to be the held form's: each is copied whole.
pub fn put_copies(s: &[u8], m: usize, work: &[u8], out: &mut [u8], place: usize) -> usize
    requires { Words s.now m work.now × AllSame s.now m work.now × (place + length (written_from 3 s.now (words_in work.now 0 m)) ≤ length out.old) }
    ensures { Wrote out.old place (written_from 3 s.now (words_in work.now 0 m)) out.new result }
{
    let mut next = place;
    for k in 0..m {
        let w = get(work, k);
        next = put_copy(
            s,
            (w % word::NAME_WEIGHT) as usize,
            out,
            next,
            (k + 3) as u32,
        );
    }
    next
}
