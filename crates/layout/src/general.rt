// What is read of the general records: the levels of DSSI, and COMF of DSPM, by which a cell's coordinates are
// multiplied.
ghost use Rattle.std.specs.Prelude.{◌+◌, ◌≤◌, ◌≡◌, length, Ok};
ghost use Rattle.headvalues.specs.Dspm.{most_comf};
ghost use Rattle.iso8211.specs.Field.{field_at};
ghost use Rattle.iso8211.specs.File.{frame_of, record_at};
ghost use Rattle.layout.specs.General.{aall_at, nall_at, comf_at};
ghost use Rattle.layout.specs.Premises.{LevelsIn, DspmThere};

use iso8211::field::{Record, head_of, record_end};
use octets::number::get4;
use table::offsets;

// AALL and NALL.
#[derive(Drop)]
pub struct Levels {
    pub aall: u8,
    pub nall: u8,
}

// Where DSSI starts in the record at `at`.
fn dssi_at(s: &[u8], at: usize) -> usize
    requires { LevelsIn s.now at }
    ensures { (result ≡ (field_at s.now at 2).start) × (result + 3 ≤ length s.now) }
{
    let f = Record {
        file: s,
        at,
        head: head_of(s, at),
    }
    .field(2);
    f.start
}

// The levels of the record of DSID and DSSI at `at`.
pub fn levels_at(s: &[u8], at: usize) -> Levels
    requires { LevelsIn s.now at }
    ensures { (result.aall ≡ aall_at s.now at) × (result.nall ≡ nall_at s.now at) }
{
    let i = dssi_at(s, at);
    Levels {
        aall: s[i + offsets::DSSI_AALL],
        nall: s[i + offsets::DSSI_NALL],
    }
}

// Where DSPM starts, in a cell of n records.
fn dspm_at(s: &[u8], n: usize) -> usize
    requires { DspmThere s.now × (frame_of s.now ≡ Ok n) × (3 ≤ n) }
    ensures { (result ≡ (field_at s.now (record_at s.now 2) 1).start) × (result + 20 ≤ length s.now) }
{
    let first = record_end(s, 0);
    let at = record_end(s, first);
    let f = Record {
        file: s,
        at,
        head: head_of(s, at),
    }
    .field(1);
    f.start
}

// COMF of a cell of n records.
pub fn comf_of(s: &[u8], n: usize) -> u32
    requires { DspmThere s.now × (frame_of s.now ≡ Ok n) × (3 ≤ n) }
    ensures { (result ≡ comf_at s.now) × (result ≤ most_comf) }
{
    let start = dspm_at(s, n);
    get4(s, start + offsets::DSPM_COMF)
}
