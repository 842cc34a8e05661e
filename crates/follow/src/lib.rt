// Whether an update may follow a chart: codes 9 to 12, from the headers of the two files. It takes the
// contents of their DSID from `fronts`, the numbers in DSID from `header`, the levels of the texts
// from `layout`, and the rules from `changes`.
#![tactic(auto)]

ghost use Rattle.std.specs.Prelude.{ℕ, ◌&&◌, ◌≡◌, eqb};
ghost use Rattle.iso8211.specs.File.{record_at};
ghost use Rattle.fieldparts.specs.Same.{same_list};
ghost use Rattle.header.specs.Dsid.{dsid_of};
ghost use Rattle.header.specs.Known.{Known};
ghost use Rattle.held.specs.Chart.{header_of};
ghost use Rattle.fronts.specs.Front.{DsidIn};
ghost use Rattle.changes.specs.Change.{change_of};
ghost use Rattle.changes.specs.Follow.{chart_name, follow_code};
ghost use Rattle.follow.specs.Headed.{Headed, dsid_code};
ghost use Rattle.layout.specs.General.{aall_at, nall_at};

use answers::codes::{EDITION, LEVEL, NUMBER, OTHER};
use fieldparts::descriptive::same_bytes;
use fronts::front::content;
use header::dsid::parts_of;
use iso8211::field::record_end;
use layout::general::levels_at;
use table::offsets;

// Whether the first eight bytes of DSNM are the same in the DSID f and in g.
fn same_name(f: &[u8], g: &[u8]) -> bool
    requires { Known f.now × Known g.now }
    ensures { result ≡ same_list (chart_name (dsid_of f.now)) (chart_name (dsid_of g.now)) }
{
    let from: usize = offsets::DSID_DSNM;
    let to: usize = offsets::DSID_DSNM + 8;
    same_bytes(f, from, to, &g[from..to])
}

// Whether the levels of the record of DSID at `by` are those of the one at `at`.
fn same_levels(cell: &[u8], at: usize, update: &[u8], by: usize) -> bool
    requires { DsidIn cell.now at × DsidIn update.now by }
    ensures { result ≡ (eqb (aall_at update.now by) (aall_at cell.now at) && eqb (nall_at update.now by) (nall_at cell.now at)) }
{
    let own = levels_at(cell, at);
    let its = levels_at(update, by);
    if its.aall != own.aall {
        return false;
    }
    its.nall == own.nall
}

// Codes 9 to 11, from the DSID f of the cell and g of the update.
fn dsid_code(f: &[u8], g: &[u8]) -> u32
    requires { Known f.now × Known g.now }
    ensures { result ≡ dsid_code (dsid_of f.now) (dsid_of g.now) }
{
    if !same_name(f, g) {
        return OTHER;
    }
    let p = parts_of(f);
    let q = parts_of(g);
    if q.edition != p.edition {
        return EDITION;
    }
    if q.number != p.number + 1 {
        return NUMBER;
    }
    0
}

// Where the record of DSID starts.
pub fn header_at(s: &[u8]) -> usize
    requires { Headed s.now }
    ensures { (result ≡ record_at s.now 1) × DsidIn s.now result }
{
    record_end(s, 0)
}

// Codes 9 to 12: the update's own name, edition, number and levels against the cell's.
pub fn follow_code(cell: &[u8], update: &[u8]) -> u32
    requires { Headed cell.now × Headed update.now }
    ensures { (m : ℕ) → result ≡ follow_code (header_of cell.now) (change_of update.now m) }
{
    let at = header_at(cell);
    let by = header_at(update);
    let code = dsid_code(content(cell, at, 1), content(update, by, 1));
    if code != 0 {
        return code;
    }
    if !same_levels(cell, at, update, by) {
        return LEVEL;
    }
    0
}
