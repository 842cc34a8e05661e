// A name looked up among the sorted words of a file's records, and a word among sorted words.
ghost use Rattle.std.specs.Prelude.{◌+◌, ◌*◌, ◌≤◌, ◌<◌, ◌≡◌, length};
ghost use Rattle.octets.specs.Lists.{is_in};
ghost use Rattle.words.specs.Words.{words_in};
ghost use Rattle.words.specs.Order.{Sorted};
ghost use Rattle.items.specs.Premises.{name_bound};
ghost use Rattle.lookups.specs.Lookup.{name_in};
ghost use Rattle.lookups.specs.LookupWords.{lookup, index_of, FirstTold, WordTold};

use items::identity::rank_of;
use items::word;
use octets::number::{get1, get4};
use table::offsets;
use words::{find, get};

// The name that an entry of VRPT or FSPT starts with.
pub fn name_in(e: &[u8]) -> u64
    requires { 5 ≤ length e.now }
    ensures { (result ≡ name_in e.now) × (result < name_bound) }
{
    let rank = rank_of(get1(e, 0));
    let rcid = get4(e, offsets::RCID) as u64;
    rank * word::CLASS_WEIGHT + rcid
}

// Of the m words from word `from` on the index of the first that has this name, if one has. Words that
// have it stand behind all smaller names, so the first word that is not below the name's least has it,
// or none has.
pub fn index_of(area: &[u8], from: usize, m: usize, name: u64) -> Option<usize>
    requires { (8 * (from + m) ≤ length area.now) × Sorted (words_in area.now from m) × (name < name_bound) }
    ensures { result ≡ index_of (words_in area.now from m) name }
{
    let p = find(area, from, m, name * word::NAME_WEIGHT);
    if from + m <= p {
        return None;
    }
    if get(area, p) / word::NAME_WEIGHT == name {
        return Some(p - from);
    }
    None
}

// Whether the word at index `near` is the first that has this name: it has it, and the word before
// hasn't. Any number may be asked about.
fn is_first(area: &[u8], from: usize, m: usize, name: u64, near: usize) -> bool
    requires { (8 * (from + m) ≤ length area.now) × Sorted (words_in area.now from m) }
    ensures { FirstTold (words_in area.now from m) name near result }
{
    if m <= near {
        return false;
    }
    if get(area, from + near) / word::NAME_WEIGHT != name {
        return false;
    }
    if near == 0 {
        return true;
    }
    if name <= get(area, from + near - 1) / word::NAME_WEIGHT {
        return false;
    }
    true
}

// Where the name stands if every name from that of the word at index `start` on is there: a guess,
// which promises nothing.
fn guess(area: &[u8], from: usize, m: usize, name: u64, start: usize) -> usize
    requires { (8 * (from + m) ≤ length area.now) × (name < name_bound) }
{
    if m <= start {
        return 0;
    }
    let least = get(area, from + start) / word::NAME_WEIGHT;
    if name < least {
        return 0;
    }
    start + (name - least) as usize
}

// The same as `index_of`. Before it halves it tries the index `near`, then the one that the name
// would have among names without gaps from index `start` on; both may be any numbers.
pub fn index_near(
    area: &[u8],
    from: usize,
    m: usize,
    name: u64,
    near: usize,
    start: usize,
) -> Option<usize>
    requires { (8 * (from + m) ≤ length area.now) × Sorted (words_in area.now from m) × (name < name_bound) }
    ensures { result ≡ index_of (words_in area.now from m) name }
{
    if is_first(area, from, m, name, near) {
        return Some(near);
    }
    let next = guess(area, from, m, name, start);
    if is_first(area, from, m, name, next) {
        return Some(next);
    }
    index_of(area, from, m, name)
}

// The place of the record that has this name, if one has, by the m words from word `from` on.
pub fn lookup(area: &[u8], from: usize, m: usize, name: u64) -> Option<usize>
    requires { (8 * (from + m) ≤ length area.now) × Sorted (words_in area.now from m) × (name < name_bound) }
    ensures { result ≡ lookup (words_in area.now from m) name }
{
    let i = index_of(area, from, m, name)?;
    Some((get(area, from + i) % word::NAME_WEIGHT) as usize)
}

// Whether w is one of the m words from word `from` on.
pub fn has_word(area: &[u8], from: usize, m: usize, w: u64) -> bool
    requires { (8 * (from + m) ≤ length area.now) × Sorted (words_in area.now from m) }
    ensures { result ≡ is_in w (words_in area.now from m) }
{
    let p = find(area, from, m, w);
    if from + m <= p {
        return false;
    }
    get(area, p) == w
}

// Whether the word at index `near` is w. Any number may be asked about.
fn is_there(area: &[u8], from: usize, m: usize, w: u64, near: usize) -> bool
    requires { 8 * (from + m) ≤ length area.now }
    ensures { WordTold (words_in area.now from m) w result }
{
    if m <= near {
        return false;
    }
    if get(area, from + near) != w {
        return false;
    }
    true
}

// How many words on each side of a guess are halved before all are.
const ABOUT: usize = 32;

// The index at which w stands if it is one of the words about the index `near`: a guess, which
// promises nothing.
fn about(area: &[u8], from: usize, m: usize, w: u64, near: usize) -> usize
    requires { (8 * (from + m) ≤ length area.now) × Sorted (words_in area.now from m) }
{
    let low = near.min(m).saturating_sub(ABOUT);
    let n = (m - low).min(2 * ABOUT);
    find(area, from + low, n, w) - from
}

// The index beside `near` on the side on which w stands if it isn't there: a guess, which promises
// nothing.
fn beside(area: &[u8], from: usize, m: usize, w: u64, near: usize) -> usize
    requires { 8 * (from + m) ≤ length area.now }
{
    if m <= near {
        return 0;
    }
    if get(area, from + near) < w {
        return near + 1;
    }
    if near == 0 {
        return 0;
    }
    near - 1
}

// The same as `has_word`. Before it halves all words it tries the index `near`, which may be any number,
// then the one beside it, and halves the words about it.
pub fn has_near(area: &[u8], from: usize, m: usize, w: u64, near: usize) -> bool
    requires { (8 * (from + m) ≤ length area.now) × Sorted (words_in area.now from m) }
    ensures { result ≡ is_in w (words_in area.now from m) }
{
    if is_there(area, from, m, w, near) {
        return true;
    }
    let next = beside(area, from, m, w, near);
    if is_there(area, from, m, w, next) {
        return true;
    }
    let place = about(area, from, m, w, near);
    if is_there(area, from, m, w, place) {
        return true;
    }
    has_word(area, from, m, w)
}
