// One pass over a file: framing, layout, values, names and counts of its records.
ghost use Rattle.std.specs.Prelude.{◌≡◌, replicate};
ghost use Rattle.reader.specs.Lent.{StartedAt};
ghost use Rattle.readonce.specs.Once.{no_tally, found_at, RecordsBefore, RecordsTold, FileTold};

use crate::record::{count, keep, passed};
use chart::read::{Reached, State, start_at};
use counted::counts::Tally;
use described::described;
use names::walk::first_item;
use recordfine::record_fine;

// What a pass found: how many records the file has, 0 where one of them isn't known to be good; how
// many of each kind; and which record it came to, all before it being good.
#[derive(Drop)]
pub struct Passed {
    pub count: usize,
    pub tally: Tally,
    pub reached: Reached,
}

// Nothing counted yet.
fn no_tally() -> Tally
    ensures { result ≡ no_tally }
{
    Tally {
        meta: 0,
        geo: 0,
        collection: 0,
        isolated: 0,
        connected: 0,
        edges: 0,
    }
}

// This count and tally of a pass that came to record `index`, at `at`.
fn found(count: usize, tally: Tally, index: usize, at: usize, known: State) -> Passed
    ensures { result ≡ found_at count tally index at known }
{
    let reached = Reached { index, at, known };
    Passed {
        count,
        tally,
        reached,
    }
}

// The records from record 1, at `start`, on, with record 0. The table is for the labels of the lists of attributes: 65,536 zeros.
fn records_once(
    s: &[u8],
    start: usize,
    marks: &[u8],
    update: bool,
    table: &mut [u32],
    area: &mut [u8],
) -> Passed
    requires { RecordsBefore s.now start marks.now table.old }
    ensures { RecordsTold update marks.now s.now area.old area.new result }
{
    let first = first_item(update);
    let mut tally = no_tally();
    let mut st = State {
        stage: 0,
        aall: 0,
        nall: 0,
    };
    let mut at = start;
    let mut k: usize = 1;
    // A while: the step is the record's own length.
    while at < s.len() {
        let stage = st.stage;
        let f = record_fine(s, at, marks, update, stage, st.aall, st.nall, table);
        if f.end == 0 {
            return found(0, tally, k, at, st);
        }
        if !keep(s, at, f.id, k, first, area) {
            return found(0, tally, k, at, st);
        }
        tally = count(tally, s, at, f.id, k, first);
        st = passed(s, at, update, st, f.kind);
        at = f.end;
        k += 1;
    }
    if st.stage < 2 {
        return found(0, tally, k, at, st);
    }
    found(k, tally, k, at, st)
}

// A table in which no label is met.
fn blank() -> [u32; 65536]
    ensures { result ≡ replicate 65536 0 }
{
    [0; 65536]
}

// The records of a file whose record 1 starts at `start`: whether they have none of the codes 2 and 4 to
// 6 and there is room at the front of the area for the words of its items, which are put there.
pub fn file_once(s: &[u8], start: usize, update: bool, area: &mut [u8]) -> Passed
    requires { StartedAt s.now start }
    ensures { FileTold update s.now area.old area.new result }
{
    let Some(marks) = described(s) else {
        let first = start_at(start);
        return found(0, no_tally(), first.index, first.at, first.known);
    };
    let mut table = blank();
    records_once(s, start, &marks, update, &mut table, area)
}
