// The true counts of DSSI, from the words of the items.
ghost use Rattle.std.specs.Prelude.{◌+◌, ◌*◌, ◌≤◌, ◌<◌, ◌≡◌, length};
ghost use Rattle.words.specs.Words.{words_in};
ghost use Rattle.items.specs.Word.{word_offset};
ghost use Rattle.counted.specs.Tallies.{with_record, AtMost};
ghost use Rattle.held.specs.Held.{tally_in};
ghost use Rattle.reissue.specs.Tally.{class_of};
ghost use Rattle.names.specs.Premises.{Stands, AllStand};
ghost use Rattle.names.specs.NameWords.{items_at};

use counted::counts::{Tally, add_feature, add_vector};
use iso8211::field::{Record, head_of};
use items::identity::objl_of;
use items::word;
use words::get;

// The class of a vector, by its place in held order.
pub fn class_of(rank: u64) -> u32
    ensures { result ≡ class_of rank }
{
    match rank {
        0 => 110,
        1 => 120,
        _ => 130,
    }
}

// The counts with the item whose word is w. Of a vector the word says all.
fn add_word(t: Tally, s: &[u8], w: u64) -> Tally
    requires { AtMost 5242880 t × Stands s.now w }
    ensures { result ≡ with_record t s.now (word_offset w) }
{
    let rank = w / word::RANK_WEIGHT;
    if rank == 3 {
        let at = (w % word::NAME_WEIGHT) as usize;
        return add_feature(
            t,
            objl_of(&Record {
                file: s,
                at,
                head: head_of(s, at),
            }),
        );
    }
    add_vector(t, class_of(rank))
}

// The counts of the m items whose words stand at the front of the work area.
pub fn tally_words(s: &[u8], m: usize, work: &[u8]) -> Tally
    requires { AllStand s.now (words_in work.now 0 m) × (8 * m ≤ length work.now) × (m ≤ 65536) }
    ensures { result ≡ tally_in (items_at s.now (words_in work.now 0 m)) }
{
    let mut t = Tally {
        meta: 0,
        geo: 0,
        collection: 0,
        isolated: 0,
        connected: 0,
        edges: 0,
    };
    for k in 0..m {
        let w = get(work, k);
        t = add_word(t, s, w);
    }
    t
}
