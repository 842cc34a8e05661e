// What is kept of a record that the walk found good: its name's word, its kind in the tally, and which
// record is due behind it.
ghost use Rattle.std.specs.Prelude.{◌+◌, ◌≤◌, ◌<◌, ◌≡◌, length};
ghost use Rattle.chart.specs.Before.{RecordPassed};
ghost use Rattle.chart.specs.Read.{passed_state};
ghost use Rattle.counted.specs.Tallies.{AtMost};
ghost use Rattle.items.specs.Identity.{id_at, name_at, word_for};
ghost use Rattle.items.specs.Premises.{Identified};
ghost use Rattle.layout.specs.General.{aall_at, nall_at};
ghost use Rattle.layout.specs.Record.{kind_at};
ghost use Rattle.readonce.specs.Once.{Kept, Counted};

use chart::read::State;
use counted::counts::{Tally, add_feature, add_vector};
use items::identity::rank_of;
use items::word;
use layout::general::levels_at;
use octets::number::{get1, get2, get4, wide};
use table::{kinds, offsets};
use words::put;

// The name of the record at `at`, whose identifier field starts at id.
fn name_at(s: &[u8], at: usize, id: usize) -> u64
    requires { (id ≡ id_at s.now at) × (id + 8 ≤ length s.now) }
    ensures { (result ≡ name_at s.now at) × (result < 17179869184) }
{
    let rank = rank_of(get1(s, id));
    let rcid = get4(s, id + offsets::RCID) as u64;
    rank * word::CLASS_WEIGHT + rcid
}

// Its name and its place in one word.
fn word_at(s: &[u8], at: usize, id: usize) -> u64
    requires { (id ≡ id_at s.now at) × (id + 8 ≤ length s.now) × (at ≤ 5242880) }
    ensures { result ≡ word_for s.now at }
{
    name_at(s, at, id) * word::NAME_WEIGHT + at as u64
}

// The word of record k, from the first item on, behind those of the items before it; whether there
// was room.
pub fn keep(s: &[u8], at: usize, id: usize, k: usize, first: usize, area: &mut [u8]) -> bool
    requires { (id ≡ id_at s.now at) × (first ≤ k → Identified s.now at) × (at ≤ 5242880) × (k ≤ 5242880) }
    ensures { Kept s.now at k first area.old area.new result }
{
    if k < first {
        return true;
    }
    let i = k - first;
    if area.len() < 8 * i + 8 {
        return false;
    }
    put(area, i, word_at(s, at, id));
    true
}

// The tally with record k, from the first item on.
pub fn count(t: Tally, s: &[u8], at: usize, id: usize, k: usize, first: usize) -> Tally
    requires { AtMost 5242880 t × (id ≡ id_at s.now at) × (first ≤ k → Identified s.now at) }
    ensures { Counted s.now at k first t result }
{
    if k < first {
        return t;
    }
    let rcnm = get1(s, id);
    if rcnm == 100 {
        return add_feature(t, get2(s, id + offsets::FRID_OBJL));
    }
    add_vector(t, rcnm)
}

// The levels of the record of DSID and DSSI.
fn levels(s: &[u8], at: usize, stage: usize) -> State
    requires { RecordPassed s.now at stage × (stage ≡ 0) }
    ensures { (result.aall ≡ aall_at s.now at) × (result.nall ≡ nall_at s.now at) }
{
    let l = levels_at(s, at);
    State {
        stage: 0,
        aall: wide(l.aall),
        nall: wide(l.nall),
    }
}

// What is known behind the record of DSID and DSSI.
fn headed(s: &[u8], at: usize, update: bool, stage: usize) -> State
    requires { RecordPassed s.now at stage × (stage ≡ 0) }
    ensures { (st : State) → st.stage ≡ 0 → result ≡ passed_state update s.now at st }
{
    let l = levels(s, at, stage);
    if update {
        return State {
            stage: 2,
            aall: l.aall,
            nall: l.nall,
        };
    }
    State {
        stage: 1,
        aall: l.aall,
        nall: l.nall,
    }
}

// What is known behind the record at `at`, whose field behind 0001 is of this kind.
pub fn passed(s: &[u8], at: usize, update: bool, st: State, kind: usize) -> State
    requires { RecordPassed s.now at st.stage × (kind ≡ kind_at s.now at 1) }
    ensures { result ≡ passed_state update s.now at st }
{
    let stage = st.stage;
    if stage == 0 {
        return headed(s, at, update, stage);
    }
    if stage == 1 {
        return State {
            stage: 2,
            aall: st.aall,
            nall: st.nall,
        };
    }
    if kind == kinds::FRID {
        return State {
            stage: 3,
            aall: st.aall,
            nall: st.nall,
        };
    }
    st
}
