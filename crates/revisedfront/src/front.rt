// The records in front: record 0, DSID and DSSI, DSPM.
ghost use Rattle.std.specs.Prelude.{◌≤◌, length};
ghost use Rattle.octets.specs.Area.{Wrote};
ghost use Rattle.revisedfront.specs.Front.{Fronted, Found, FrontSized, front_bytes};

use counted::counts::Tally;
use follow::header_at;
use fronts::front::{dspm_total, put_dspm_record, put_revised_record, revised_total};
use header::first::put_first;
use iso8211::field::record_end;
use records::head::larger;
use writing::all::Sizes;

// Where they stand: the records of DSID and of DSPM of the cell, and that of DSID of the update.
#[derive(Drop)]
pub struct Fronts {
    pub dsid: usize,
    pub dspm: usize,
    pub by: usize,
}

// Where the records in front stand.
pub fn fronts_of(cell: &[u8], update: &[u8]) -> Fronts
    requires { Fronted cell.now update.now }
    ensures { Found cell.now update.now result }
{
    let dsid = header_at(cell);
    let dspm = record_end(cell, dsid);
    let by = header_at(update);
    Fronts { dsid, dspm, by }
}

// How long they are in the result.
pub fn front_sizes(cell: &[u8], update: &[u8]) -> Sizes
    requires { Fronted cell.now update.now }
    ensures { FrontSized cell.now update.now result }
{
    let f = fronts_of(cell, update);
    let dsid = revised_total(cell, f.dsid, update, f.by);
    let dspm = dspm_total(cell, f.dspm);
    Sizes {
        sum: 1561 + dsid as usize + dspm as usize,
        most: larger(dsid, dspm),
    }
}

// Records 0 to 2 of the result, with these counts.
pub fn put_front(cell: &[u8], update: &[u8], f: Fronts, counts: Tally, out: &mut [u8]) -> usize
    requires { Found cell.now update.now f × (length (front_bytes cell.now update.now f counts) ≤ length out.old) }
    ensures { Wrote out.old 0 (front_bytes cell.now update.now f counts) out.new result }
{
    let a = put_first(out, 0);
    let b = put_revised_record(cell, f.dsid, update, f.by, counts, out, a);
    put_dspm_record(cell, f.dspm, out, b)
}
