// Which field may stand where in a record.
ghost use Rattle.std.specs.Prelude.{◌≡◌};
ghost use Rattle.layout.specs.Layout.{opens, follows, placed, may_end};

use table::{kind_row, kinds};

// In place of a kind where no field stands before.
pub const START: usize = kinds::COUNT;

// Whether a field of kind k opens a record of this stage, behind its 0001.
pub fn opens(stage: usize, k: usize) -> bool
    ensures { result ≡ opens stage k }
{
    let row = kind_row(k);
    let feature = (stage == 2) & (row.group == 3);
    (row.order == 1) & ((row.group == stage) | feature)
}

// Whether a field of kind k may stand behind one of kind `prev`.
pub fn follows(update: bool, prev: usize, k: usize) -> bool
    ensures { result ≡ follows update prev k }
{
    let before = kind_row(prev);
    let row = kind_row(k);
    let repeated = (prev == k) & row.list;
    let later = (before.order < row.order) | repeated;
    let identified = !(prev == kinds::FRID) | (k == kinds::FOID);
    let allowed = !row.control | update;
    (before.group == row.group) & (later & (identified & allowed))
}

// The same for the first fields too.
pub fn placed(update: bool, stage: usize, prev: usize, k: usize) -> bool
    ensures { result ≡ placed update stage prev k }
{
    if prev == START {
        return k == kinds::FIRST;
    }
    if prev == kinds::FIRST {
        return opens(stage, k);
    }
    follows(update, prev, k)
}

// Whether a record may end with a field of kind `prev`.
pub fn may_end(prev: usize) -> bool
    ensures { result ≡ may_end prev }
{
    !((prev == kinds::FIRST) | ((prev == kinds::DSID) | (prev == kinds::FRID)))
}
