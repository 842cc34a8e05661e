// Lists with texts, whole and of good values at once: a list of attributes, a list of FFPT. Each takes
// the bytes d of a field with its closing 1E, which is no text, so that a text needs no other end.
ghost use Rattle.std.specs.Prelude.{◌+◌, ◌-◌, ◌≤◌, Bool, true, false, ◌≡◌, length};
ghost use Rattle.fieldfine.specs.Told.{content_in, AttributesTold, PointersTold};
ghost use Rattle.fieldfine.specs.Text.{Ended, TextRun, AttributeTold, PointerTold};

use headvalues::text::is_text;
use octets::number::{get2, wide};
use table::offsets;

// The first byte from `from` on that is no text, where without HIGH those from A0 on are none. All
// bytes before it are text at each level that lets as much pass.
fn level_run<const HIGH: bool>(d: &[u8], from: usize) -> usize
    requires { Ended d.now × (from + 1 ≤ length d.now) }
    ensures { ((high : Bool) → (HIGH ≡ true → high ≡ true) → TextRun high (content_in d.now) from result) × (result + 1 ≤ length d.now) }
{
    let mut i = from;
    // A while: the closing 1E ends it, so that no turn looks where d ends.
    while is_text(d[i], HIGH) {
        i += 1;
    }
    i
}

// The first byte from `from` on that is no text. Nearly all texts have no byte from A0 on, so that
// `high` is asked for only once such a byte comes.
fn text_run(d: &[u8], from: usize, high: bool) -> usize
    requires { Ended d.now × (from + 1 ≤ length d.now) }
    ensures { TextRun high (content_in d.now) from result × (result + 1 ≤ length d.now) }
{
    let i = level_run::<false>(d, from);
    if d[i] < 160 || !high {
        return i;
    }
    level_run::<true>(d, from)
}

// The length of the attribute at `at` whose value is 7F alone; 0 where none stands there. Only
// updates have them.
fn removal_len(d: &[u8], at: usize, high: bool) -> usize
    requires { Ended d.now × (at + 1 ≤ length d.now) }
    ensures { AttributeTold true high (content_in d.now) at result }
{
    if d.len() - at < 5 {
        return 0;
    }
    if wide(d[at + 2]) != 127 {
        return 0;
    }
    if wide(d[at + 3]) != 31 {
        return 0;
    }
    4
}

// The length of the attribute at `at`, its value good; 0 where none such stands there.
fn attribute_len(d: &[u8], at: usize, update: bool, high: bool) -> usize
    requires { Ended d.now × (at + 1 ≤ length d.now) }
    ensures { AttributeTold update high (content_in d.now) at result }
{
    if d.len() - at < 4 {
        return 0;
    }
    let end = text_run(d, at + offsets::ATVL, high);
    if d[end] == 31 {
        return end + 1 - at;
    }
    if update {
        return removal_len(d, at, high);
    }
    0
}

// Whether a field of attributes is whole and its labels and values are good.
pub fn attributes_fine(d: &[u8], update: bool, high: bool, table: &mut [u32], stamp: u32) -> bool
    requires { Ended d.now × (length table.old ≡ 65536) }
    ensures { AttributesTold update high (content_in d.now) stamp table.old table.new result }
{
    let stop = d.len() - 1;
    let mut at: usize = 0;
    // A while: the step is the attribute's own length.
    while at < stop {
        let n = attribute_len(d, at, update, high);
        if n == 0 {
            return false;
        }
        let label = get2(d, at) as usize;
        if table[label] == stamp {
            return false;
        }
        table[label] = stamp;
        at += n;
    }
    at != 0
}

// The first byte of a comment from `from` on that is no text. Nearly every comment is empty.
fn comment_run(d: &[u8], from: usize) -> usize
    requires { Ended d.now × (from + 1 ≤ length d.now) }
    ensures { TextRun false (content_in d.now) from result × (result + 1 ≤ length d.now) }
{
    if d[from] == 31 {
        return from;
    }
    text_run(d, from, false)
}

// The length of the FFPT at `at`, its values good; 0 where none such stands there.
fn pointer_len(d: &[u8], at: usize) -> usize
    requires { Ended d.now × (at + 1 ≤ length d.now) }
    ensures { PointerTold (content_in d.now) at result }
{
    if d.len() - at < 11 {
        return 0;
    }
    let rind = wide(d[at + offsets::FFPT_RIND]);
    if rind < 2 || 3 < rind {
        return 0;
    }
    let end = comment_run(d, at + offsets::FFPT_COMT);
    if d[end] != 31 {
        return 0;
    }
    end + 1 - at
}

// Whether a field of FFPT is whole and its values are good.
pub fn pointers_fine(d: &[u8]) -> bool
    requires { Ended d.now }
    ensures { PointersTold (content_in d.now) result }
{
    let stop = d.len() - 1;
    let mut at: usize = 0;
    // A while: the step is the pointer's own length.
    while at < stop {
        let n = pointer_len(d, at);
        if n == 0 {
            return false;
        }
        at += n;
    }
    at != 0
}
