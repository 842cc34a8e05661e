// The first name that is met twice in a file.
ghost use Rattle.std.specs.Prelude.{◌-◌, ◌*◌, ◌≤◌, ◌≡◌, length};
ghost use Rattle.words.specs.Words.{words_in};
ghost use Rattle.words.specs.Order.{sorted};
ghost use Rattle.names.specs.Names.{first_item, twice_of, met_twice};
ghost use Rattle.names.specs.Neighbours.{lower, least_repeat};
ghost use Rattle.names.specs.NameWords.{name_words};
ghost use Rattle.names.specs.Premises.{Readable};

use crate::walk::{first_item, record_from};
use items::word;
use words::get;

// A record whose name an earlier record has: which it is, and where it starts.
#[derive(Clone, Copy)]
pub struct Repeat {
    pub index: usize,
    pub offset: usize,
}

// The least place so far, and that of `right` where the word to its left has its name.
fn lower_of(least: u64, left: u64, right: u64) -> u64
    ensures { result ≡ lower least left right }
{
    if left / word::NAME_WEIGHT != right / word::NAME_WEIGHT {
        return least;
    }
    least.min(right % word::NAME_WEIGHT)
}

// The least place of a word, of the first m, whose left neighbour has its name; 16,777,216 where
// there is none.
fn least_repeat(area: &[u8], m: usize) -> u64
    requires { 8 * m ≤ length area.now }
    ensures { result ≡ least_repeat (words_in area.now 0 m) }
{
    if m == 0 {
        return word::NAME_WEIGHT;
    }
    let mut least: u64 = word::NAME_WEIGHT;
    let mut left = get(area, 0);
    for i in 1..m {
        let right = get(area, i);
        least = lower_of(least, left, right);
        left = right;
    }
    least
}

// The first record whose name an earlier one has, if there is one. In the area are the words in held order: records of
// one name stand side by side there, in the file's order.
pub fn twice(s: &[u8], n: usize, update: bool, area: &[u8]) -> Option<Repeat>
    requires { Readable update s.now n
        × (8 * (n - first_item update) ≤ length area.now)
        × (words_in area.now 0 (n - first_item update) ≡ sorted (name_words update s.now n)) }
    ensures { result ≡ met_twice (twice_of update s.now n) }
{
    let least = least_repeat(area, n - first_item(update));
    if least == word::NAME_WEIGHT {
        return None;
    }
    let offset = least as usize;
    let index = record_from(s, n, offset);
    Some(Repeat { index, offset })
}
