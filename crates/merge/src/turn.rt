// One turn of the weaving: which of the next words of cell and update comes first.
ghost use Rattle.std.specs.Prelude.{◌+◌, ◌*◌, ◌≤◌, ◌<◌, ◌≡◌, length};
ghost use Rattle.words.specs.Words.{words_in};
ghost use Rattle.merge.specs.Words.{deletes};
ghost use Rattle.items.specs.Word.{marked};
ghost use Rattle.merge.specs.Area.{kept_turn, inserted_turn, deleted_turn, modified_turn, Turned};
ghost use Rattle.names.specs.Premises.{Strict};

use items::word;
use std::cmp::Ordering;
use words::get;

// What a turn takes and gives: x words of the cell and y of the update are used up; `keep` words of
// the result come of them, 0 or 1, which is `word`, and `change` of its modifies, which is `by`.
#[derive(Clone, Copy)]
pub struct Turn {
    pub x: usize,
    pub y: usize,
    pub keep: usize,
    pub word: u64,
    pub change: usize,
    pub by: u64,
}

// Whether the record of the update with this word is a delete.
pub fn is_delete(u: u64) -> bool
    ensures { result ≡ deletes u }
{
    u / word::MARK_WEIGHT % 2 == 1
}

// The word of an inserted record, marked as one of the update.
pub fn mark(u: u64) -> u64
    ensures { result ≡ marked u }
{
    u / word::NAME_WEIGHT * word::NAME_WEIGHT + word::MARK_WEIGHT + u % word::MARK_WEIGHT
}

// The four turns. The word of the cell is kept.
fn kept(c: u64) -> Turn
    ensures { result ≡ kept_turn c }
{
    Turn {
        x: 1,
        y: 0,
        keep: 1,
        word: c,
        change: 0,
        by: 0,
    }
}

// That of the update comes in; w is that word marked.
fn inserted(w: u64) -> Turn
    ensures { result ≡ inserted_turn w }
{
    Turn {
        x: 0,
        y: 1,
        keep: 1,
        word: w,
        change: 0,
        by: 0,
    }
}

// That of the cell goes, with the one that deletes it.
fn deleted(c: u64) -> Turn
    ensures { result ≡ deleted_turn c }
{
    Turn {
        x: 1,
        y: 1,
        keep: 0,
        word: c,
        change: 0,
        by: 0,
    }
}

// That of the cell stays, and u modifies it.
fn modified(c: u64, u: u64) -> Turn
    ensures { result ≡ modified_turn c u }
{
    Turn {
        x: 1,
        y: 1,
        keep: 1,
        word: c,
        change: 1,
        by: u,
    }
}

// The turn where p is the place of the next word of the cell, of which i are left, and q of the update, of
// which j are left.
pub fn taken(work: &[u8], p: usize, i: usize, q: usize, j: usize) -> Turn
    requires { (8 * (p + i) ≤ length work.now) × (8 * (q + j) ≤ length work.now) × (1 ≤ i + j)
        × Strict (words_in work.now p i) × Strict (words_in work.now q j) }
    ensures { Turned (words_in work.now p i) (words_in work.now q j) result }
{
    if i == 0 {
        return inserted(mark(get(work, q)));
    }
    let c = get(work, p);
    if j == 0 {
        return kept(c);
    }
    let u = get(work, q);
    let held = c / word::NAME_WEIGHT;
    let named = u / word::NAME_WEIGHT;
    match held.cmp(&named) {
        Ordering::Less => kept(c),
        Ordering::Greater => inserted(mark(u)),
        Ordering::Equal if is_delete(u) => deleted(c),
        Ordering::Equal => modified(c, u),
    }
}
