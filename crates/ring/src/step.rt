// An edge as an area runs along it.
ghost use Rattle.std.specs.Prelude.{◌≤◌, ◌≡◌, length, get_or};
ghost use Rattle.words.specs.Words.{words_in};
ghost use Rattle.lookups.specs.LookupWords.{index_of};
ghost use Rattle.names.specs.Premises.{Noted};
ghost use Rattle.ring.specs.Walk.{taken_of, node_at};

use items::word;
use lookups::lookup::{index_near, name_in};
use lookups::starts::{Starts, start_for};
use octets::number::wide;
use table::offsets;
use words::get;

// The node at which it starts, the node at which it ends, and its USAG.
#[derive(Drop)]
pub struct Step {
    pub from: u32,
    pub to: u32,
    pub usage: u32,
}

// The ends of the edge that is item i, by its note; 0 where it is none.
// A number, no Option: who asks takes both ends out of it, and where it is none both are node 0.
pub fn ends_at(work: &[u8], m: usize, v: usize, i: usize) -> u64
    requires { Noted work.now m v }
    ensures { result ≡ get_or (words_in work.now m v) i 0 }
{
    if v <= i {
        return 0;
    }
    get(work, m + i)
}

// The step of one FSPT, if a record has its name. Its edge is looked for where the words of its class
// may begin.
pub fn step_of(e: &[u8], work: &[u8], m: usize, v: usize, starts: Starts) -> Option<Step>
    requires { (8 ≤ length e.now) × Noted work.now m v }
    ensures { result ≡ taken_of (index_of (words_in work.now 0 m)) (node_at (words_in work.now 0 m) (words_in work.now m v)) e.now }
{
    let name = name_in(e);
    let start = start_for(starts, name);
    let i = index_near(work, 0, m, name, m, start)?;
    let ends = ends_at(work, m, v, i);
    let begin = (ends / word::BEGIN_WEIGHT) as u32;
    let end = (ends % word::BEGIN_WEIGHT) as u32;
    let usage = wide(e[offsets::FSPT_USAG]);
    if e[offsets::FSPT_ORNT] == 2 {
        return Some(Step {
            from: end,
            to: begin,
            usage,
        });
    }
    Some(Step {
        from: begin,
        to: end,
        usage,
    })
}
