// Topology, codes 17 to 19: Shape, Pointer and Ring of all items in held order. It takes the rules of
// one item from `shape`, `pointer` and `ring`, what tells quickly that an item has no fault from
// `quickvectors` and `quickfeatures`, and the held order from the words that reading left in the work
// area.
#![tactic(auto)]

ghost use Rattle.std.specs.Prelude.{◌-◌, ◌*◌, ◌≤◌, false, ◌≡◌, length};
ghost use Rattle.headvalues.specs.Dspm.{most_comf};
ghost use Rattle.words.specs.Words.{words_in};
ghost use Rattle.items.specs.Item.{item_at};
ghost use Rattle.answers.specs.Answer.{outcome};
ghost use Rattle.topology.specs.Topology.{topology_fault};
ghost use Rattle.topology.specs.Notes.{noted_code, word_fault, ClearTo};
ghost use Rattle.items.specs.Premises.{LaidOut, Identified};
ghost use Rattle.names.specs.Premises.{Readable, AllStand, HeldIn, Noted};
ghost use Rattle.layout.specs.Premises.{DspmThere};

use answers::Refusal;
use answers::refusal::refuse;
use iso8211::field::{Record, head_of};
use items::identity::{prim_of, rcnm_of};
use items::word;
use layout::general::comf_of;
use lookups::starts::{Starts, starts_of};
use note::prepare;
use pointer::{lnams_code, pointer_code};
use quick::is_faultless;
use ring::area_code;
use shape::shape_code;
use words::get;

pub mod note;
pub mod quick;
pub mod seen;

// The note of the item at `at`, whose class has this rank.
pub use note::note_at;

// Behind m words their notes, those of the features put in order; the answer is the number of
// vectors.
pub use note::sort_notes;

// The note of the item at `at`, and whether it is known to have no fault.
pub use seen::seen_at;

// The code of the item at `at`, by the words and notes of m items, of which v are vectors. Of an area
// Pointer and Ring are judged together, of anything else there is no Ring.
fn judged_code(s: &[u8], at: usize, comf: u32, work: &[u8], m: usize, v: usize) -> u32
    requires { LaidOut s.now at × Identified s.now at × Noted work.now m v × (comf ≤ most_comf) }
    ensures { result ≡ noted_code comf work.now m v (item_at s.now at) }
{
    let h = head_of(s, at);
    let r = Record {
        file: s,
        at,
        head: h,
    };
    let shape = shape_code(&r, comf);
    if shape != 0 {
        return shape;
    }
    if rcnm_of(&r) != 100 {
        return pointer_code(&r, work, m, v);
    }
    if prim_of(&r) != 3 {
        return pointer_code(&r, work, m, v);
    }
    let related = lnams_code(&r, work, m, v);
    if related != 0 {
        return related;
    }
    area_code(&r, work, m, v)
}

// The same, without asking the rules one by one where the item is seen to have no fault.
pub fn item_code(
    s: &[u8],
    at: usize,
    comf: u32,
    work: &[u8],
    m: usize,
    v: usize,
    starts: Starts,
) -> u32
    requires { LaidOut s.now at × Identified s.now at × Noted work.now m v × (comf ≤ most_comf) }
    ensures { result ≡ noted_code comf work.now m v (item_at s.now at) }
{
    if is_faultless(s, at, comf, work, m, v, starts) {
        return 0;
    }
    judged_code(s, at, comf, work, m, v)
}

// The first of m items that has a code; the first `clear` of them have none.
fn items_fault(
    s: &[u8],
    comf: u32,
    work: &[u8],
    m: usize,
    v: usize,
    clear: usize,
) -> Result<(), Refusal>
    requires { AllStand s.now (words_in work.now 0 m) × Noted work.now m v × (comf ≤ most_comf) × (m ≤ 5242880) × ClearTo comf s.now (words_in work.now 0 m) clear }
    ensures { result ≡ outcome (word_fault (noted_code comf work.now m v) s.now 3 (words_in work.now 0 m)) }
{
    let starts = starts_of(work, m);
    for i in clear..m {
        let at = (get(work, i) % word::NAME_WEIGHT) as usize;
        let code = item_code(s, at, comf, work, m, v, starts);
        if code != 0 {
            return Err(refuse(code, 3 + i, at));
        }
    }
    Ok(())
}

// The topology of a cell of n records that is readable, whose words in held order stand in the work
// area, and stay there.
pub fn topology_fault(s: &[u8], n: usize, work: &mut [u8]) -> Result<(), Refusal>
    requires { Readable false s.now n × DspmThere s.now × HeldIn s.now n work.old × (16 * n ≤ length work.old) }
    ensures value { result ≡ outcome (topology_fault s.now n) }
    ensures held_in { HeldIn s.now n work.new }
{
    let m = n - 3;
    let comf = comf_of(s, n);
    let ready = prepare(s, work, m, comf);
    items_fault(s, comf, work, m, ready.vectors, ready.clear)
}
