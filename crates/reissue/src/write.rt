// The bytes of the held form.
ghost use Rattle.std.specs.Prelude.{◌+◌, ◌≤◌, length};
ghost use Rattle.octets.specs.Area.{Wrote};
ghost use Rattle.words.specs.Words.{words_in};
ghost use Rattle.held.specs.Held.{held_of};
ghost use Rattle.writing.specs.All.{Words, written_from};
ghost use Rattle.fronts.specs.Front.{DsidIn, DspmIn};
ghost use Rattle.reissue.specs.Plan.{chart_from, Writing, SameTold, front_bytes};

use crate::tally::tally_words;
use counted::counts::Tally;
use fronts::front::{put_dsid_record, put_dspm_record};
use header::first::put_first;
use iso8211::field::record_end;
use writing::all::{put_copies, put_items};

// Records 0 to 2 with these counts, DSID being at `first`, DSPM at `second`.
fn put_front(s: &[u8], first: usize, second: usize, counts: Tally, out: &mut [u8]) -> usize
    requires { DsidIn s.now first × DspmIn s.now second × (length (front_bytes s.now first second counts) ≤ length out.old) }
    ensures { Wrote out.old 0 (front_bytes s.now first second counts) out.new result }
{
    let a = put_first(out, 0);
    let b = put_dsid_record(s, first, counts, out, a);
    put_dspm_record(s, second, out, b)
}

// The records of the m items: each copied whole where they are known to be the held form's.
fn put_rest(s: &[u8], m: usize, work: &[u8], same: bool, out: &mut [u8], place: usize) -> usize
    requires { Words s.now m work.now × SameTold s.now m work.now same
        × (place + length (written_from 3 s.now (words_in work.now 0 m)) ≤ length out.old) }
    ensures { Wrote out.old place (written_from 3 s.now (words_in work.now 0 m)) out.new result }
{
    if same {
        return put_copies(s, m, work, out, place);
    }
    put_items(s, m, work, out, place)
}

// The held form of a cell of m items, into the front of an area that has room for it; `same`: whether the
// records of the items are known to be the held form's.
pub fn put_chart(s: &[u8], m: usize, work: &[u8], same: bool, out: &mut [u8]) -> usize
    requires { Writing s.now m work.now × SameTold s.now m work.now same × (length (held_of (chart_from s.now (words_in work.now 0 m))) ≤ length out.old) }
    ensures { Wrote out.old 0 (held_of (chart_from s.now (words_in work.now 0 m))) out.new result }
{
    let counts = tally_words(s, m, work);
    let first = record_end(s, 0);
    let second = record_end(s, first);
    let next = put_front(s, first, second, counts, out);
    put_rest(s, m, work, same, out, next)
}
