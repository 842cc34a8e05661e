// Document 01's Ring of one item, code 19: whether the edges of an area run in closed rings, the
// first of them exterior; judged together with its Pointer, code 18, so that an edge is looked up once.
// It takes the lists from `items` and the code of missing names from `pointer`; where an edge begins
// and ends it takes from the notes in the work area, which `ends_of` makes.
#![tactic(auto)]

ghost use Rattle.std.specs.Prelude.{◌≡◌};
ghost use Rattle.table.specs.Table.{FSPT};
ghost use Rattle.words.specs.Words.{words_in};
ghost use Rattle.items.specs.Lists.{entries_at};
ghost use Rattle.lookups.specs.LookupWords.{index_of};
ghost use Rattle.ring.specs.Ring.{usage_good};
ghost use Rattle.items.specs.Premises.{Listed};
ghost use Rattle.names.specs.Premises.{Noted};
ghost use Rattle.ring.specs.Walk.{node_at, area_closed, area_code};

use answers::codes::RING;
use iso8211::field::Record;
use items::cursor::begin;
use items::step::next;
use lookups::starts::{Starts, starts_of};
use pointer::names_code;
use step::step_of;
use table::kinds;

pub mod ends;
pub mod step;

// The begin and the end of the edge at `at` in one word.
pub use ends::ends_of;

// The same of an edge that has these two VRPT.
pub use ends::ends_between;

// Whether an edge of the exterior ring, or of another, may have this USAG.
pub fn usage_good(exterior: bool, usage: u32) -> bool
    ensures { result ≡ usage_good exterior usage }
{
    if !exterior {
        return usage == 2;
    }
    if usage == 1 {
        return true;
    }
    usage == 3
}

// Whether every edge of the area at `at` is there and they run in closed rings. In a ring t is the
// edge before the cursor.
fn rings_closed(r: &Record, work: &[u8], m: usize, v: usize, starts: Starts) -> bool
    requires { Listed r.now.file.now r.now.at r.now.head FSPT × Noted work.now m v }
    ensures { result ≡ area_closed (index_of (words_in work.now 0 m)) (node_at (words_in work.now 0 m) (words_in work.now m v))
        (entries_at r.now.file.now r.now.at FSPT) }
{
    let mut exterior = true;
    let mut c = begin();
    'rings: while let Some((from, to, after)) = next(r, kinds::FSPT, c) {
        let Some(first) = step_of(&r.file[from..to], work, m, v, starts) else {
            return false;
        };
        let start = first.from;
        let mut t = first;
        c = after;
        // A loop: it goes on until an edge ends where the ring began, and only behind that test takes the next.
        loop {
            if !usage_good(exterior, t.usage) {
                return false;
            }
            if t.to == start {
                exterior = false;
                continue 'rings;
            }
            let Some((from, to, after)) = next(r, kinds::FSPT, c) else {
                return false;
            };
            let Some(u) = step_of(&r.file[from..to], work, m, v, starts) else {
                return false;
            };
            if u.from != t.to {
                return false;
            }
            t = u;
            c = after;
        }
    }
    true
}

// The code of the FSPT of the area at `at`, by the words and notes of m items, of which v are
// vectors. Only of an area with a fault the names are looked up again, to tell which it is.
pub fn area_code(r: &Record, work: &[u8], m: usize, v: usize) -> u32
    requires { Listed r.now.file.now r.now.at r.now.head FSPT × Noted work.now m v }
    ensures { result ≡ area_code (index_of (words_in work.now 0 m)) (node_at (words_in work.now 0 m) (words_in work.now m v))
        (entries_at r.now.file.now r.now.at FSPT) }
{
    let starts = starts_of(work, m);
    if rings_closed(r, work, m, v, starts) {
        return 0;
    }
    let missing = names_code(r, kinds::FSPT, work, m, v);
    if missing != 0 {
        return missing;
    }
    RING
}
