// The reading of a file's records: what each stage answers is a refusal or nothing.
ghost use Rattle.std.specs.Prelude.{◌+◌, ◌-◌, ◌≤◌, ◌<◌, ◌≡◌, length, replicate, Ok};
ghost use Rattle.iso8211.specs.File.{frame_of};
ghost use Rattle.chart.specs.Read.{next_stage, is_feature, passed_state, records_fault, read_fault};
ghost use Rattle.answers.specs.Answer.{outcome};
ghost use Rattle.answers.specs.Codes.{most_bytes};
ghost use Rattle.chart.specs.Before.{BeforeRecords, ReadTo, RecordPassed, start_at};

use answers::Refusal;
use answers::codes::{DESCRIBED, LAYOUT, VALUE};
use answers::refusal::refuse;
use described::described;
use fieldvalue::value::value_fault;
use iso8211::field::{Record, head_of, record_end};
use layout::general::levels_at;
use layout::layout_fault;
use octets::number::wide;
use table::{kind_of, kinds};

// What is known between two records: which kind of record is due (0 that of DSID, 1 that of DSPM, 2 a
// vector or a feature, 3 a feature), and the levels AALL and NALL.
#[derive(Clone, Copy)]
pub struct State {
    pub stage: usize,
    pub aall: u32,
    pub nall: u32,
}

// Where reading stands between two records: which one comes next, where it starts, and what is known there.
#[derive(Clone, Copy)]
pub struct Reached {
    pub index: usize,
    pub at: usize,
    pub known: State,
}

// Record 1, at `at`: nothing is known yet.
pub fn start_at(at: usize) -> Reached
    ensures { result ≡ start_at at }
{
    let known = State {
        stage: 0,
        aall: 0,
        nall: 0,
    };
    Reached {
        index: 1,
        at,
        known,
    }
}

fn next_stage(update: bool, stage: usize, feature: bool) -> usize
    ensures { result ≡ next_stage update stage feature }
{
    match stage {
        0 if update => 2,
        0 => 1,
        1 => 2,
        _ if feature => 3,
        _ => stage,
    }
}

fn is_feature(s: &[u8], at: usize, stage: usize) -> bool
    requires { RecordPassed s.now at stage }
    ensures { result ≡ is_feature s.now at }
{
    let f = Record {
        file: s,
        at,
        head: head_of(s, at),
    }
    .field(1);
    kind_of(f.tag) == kinds::FRID
}

// What is known behind the record at `at`.
fn passed(s: &[u8], at: usize, update: bool, st: State) -> State
    requires { RecordPassed s.now at st.stage }
    ensures { result ≡ passed_state update s.now at st }
{
    let stage = st.stage;
    let next = next_stage(update, stage, is_feature(s, at, stage));
    if stage == 0 {
        let l = levels_at(s, at);
        return State {
            stage: next,
            aall: wide(l.aall),
            nall: wide(l.nall),
        };
    }
    State {
        stage: next,
        aall: st.aall,
        nall: st.nall,
    }
}

// The first record from there on that breaks Layout or Value. The table is for the labels of the lists
// of attributes: 65,536 zeros.
fn records_fault(
    s: &[u8],
    n: usize,
    from: Reached,
    marks: &[u8],
    update: bool,
    table: &mut [u32],
) -> Result<(), Refusal>
    requires { BeforeRecords s.now n from marks.now table.old }
    ensures { result ≡ outcome (records_fault (n - from.index) update marks.now s.now from.index from.at from.known) }
{
    let mut st = from.known;
    let mut at = from.at;
    for k in from.index..n {
        let stage = st.stage;
        if let Err(fault) = layout_fault(s, at, marks, update, stage) {
            return Err(refuse(LAYOUT, k, fault.at));
        }
        if let Err(fault) = value_fault(s, at, update, st.aall, st.nall, table) {
            return Err(refuse(VALUE, k, fault.at));
        }
        st = passed(s, at, update, st);
        at = record_end(s, at);
    }
    if st.stage < 2 {
        return Err(refuse(LAYOUT, n, s.len()));
    }
    Ok(())
}

// A table in which no label is met: a number for each of the 65,536 labels that two bytes can name.
fn blank() -> [u32; 65536]
    ensures { result ≡ replicate 65536 0 }
{
    [0; 65536]
}

// The first thing in a framed file of n records that breaks Described, Layout or Value, where the
// records before the one reached are known to be good.
pub fn read_fault_from(s: &[u8], n: usize, from: Reached, update: bool) -> Result<(), Refusal>
    requires { (frame_of s.now ≡ Ok n) × (length s.now ≤ most_bytes) × ReadTo update s.now n from }
    ensures { result ≡ outcome (read_fault update s.now n) }
{
    let Some(marks) = described(s) else {
        return Err(refuse(DESCRIBED, 0, 0));
    };
    let mut table = blank();
    records_fault(s, n, from, &marks, update, &mut table)
}

// The same from record 1 on.
pub fn read_fault(s: &[u8], n: usize, update: bool) -> Result<(), Refusal>
    requires { (frame_of s.now ≡ Ok n) × (length s.now ≤ most_bytes) }
    ensures { result ≡ outcome (read_fault update s.now n) }
{
    read_fault_from(s, n, start_at(record_end(s, 0)), update)
}
