// Where an edge begins and ends.
ghost use Rattle.std.specs.Prelude.{◌≤◌, ◌<◌, [], ◌∷◌, ◌≡◌, length};
ghost use Rattle.table.specs.Table.{VRPT};
ghost use Rattle.items.specs.Lists.{entries_at};
ghost use Rattle.ring.specs.Ring.{node_step};
ghost use Rattle.items.specs.Premises.{Listed};
ghost use Rattle.ring.specs.Walk.{ends_with};

use iso8211::field::Record;
use items::cursor::begin;
use items::step::next;
use items::word;
use octets::number::{get4, wide};
use table::{kinds, offsets};

// The node that a VRPT names, if it has this TOPI; else the one before.
fn node_step(topi: u32, node: u32, e: &[u8]) -> u32
    requires { (9 ≤ length e.now) × (node < 4294967296) }
    ensures { (result ≡ node_step topi node e.now) × (result < 4294967296) }
{
    if wide(e[offsets::VRPT_TOPI]) == topi {
        return get4(e, offsets::RCID);
    }
    node
}

// The begin and the end of the edge at `at` in one word.
pub fn ends_of(r: &Record) -> u64
    requires { Listed r.now.file.now r.now.at r.now.head VRPT }
    ensures { result ≡ ends_with (entries_at r.now.file.now r.now.at VRPT) }
{
    let mut first: u32 = 0;
    let mut last: u32 = 0;
    let mut c = begin();
    while let Some((from, to, after)) = next(r, kinds::VRPT, c) {
        first = node_step(1, first, &r.file[from..to]);
        last = node_step(2, last, &r.file[from..to]);
        c = after;
    }
    first as u64 * word::BEGIN_WEIGHT + last as u64
}

// The same of an edge that has these two VRPT.
pub fn ends_between(a: &[u8], b: &[u8]) -> u64
    requires { (9 ≤ length a.now) × (9 ≤ length b.now) }
    ensures { result ≡ ends_with (a.now ∷ b.now ∷ []) }
{
    let first = node_step(1, node_step(1, 0, a), b);
    let last = node_step(2, node_step(2, 0, a), b);
    first as u64 * word::BEGIN_WEIGHT + last as u64
}
