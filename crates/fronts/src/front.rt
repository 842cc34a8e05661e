// The records of DSID and of DSPM: their sizes and their bytes.
ghost use Rattle.std.specs.Prelude.{◌+◌, ◌≤◌, ◌<◌, ◌≡◌, [], ◌∷◌, ◌++◌, length, take};
ghost use Rattle.octets.specs.Number.{bytes_of};
ghost use Rattle.octets.specs.Area.{Wrote};
ghost use Rattle.iso8211.specs.Field.{count_at};
ghost use Rattle.iso8211.specs.Premises.{RecordIn};
ghost use Rattle.layout.specs.Record.{content_at};
ghost use Rattle.records.specs.Written.{body_of, record_bytes, size_of};
ghost use Rattle.header.specs.Dsid.{dsid_of, dsid_bytes, revised};
ghost use Rattle.header.specs.Known.{Known};
ghost use Rattle.fronts.specs.Front.{dsid_fields, dspm_fields, dsid_in, revised_in, dssi_in, dsid_rows, opening, FieldThere, SizeFor, DsidSized, RevisedSized, DsidIn, DspmIn};

use counted::counts::Tally;
use header::dsid::{dsid_size, put_dsid, put_revised, revised_size};
use header::dssi::put_dssi;
use iso8211::field::{Field, Record, head_of};
use layout::general::levels_at;
use octets::area::copy;
use octets::number::{put1, put2};
use records::head::{base_of, put_head};
use table::tags;

// Field j of the record at `at`.
fn field_in(s: &[u8], at: usize, j: usize) -> Field
    requires { RecordIn s.now at × (j < count_at s.now at) }
    ensures { FieldThere s.now at j result }
{
    Record {
        file: s,
        at,
        head: head_of(s, at),
    }
    .field(j)
}

// The bytes of field j of the record at `at`, without its 1E.
pub fn content<'a>(s: &'a [u8], at: usize, j: usize) -> &'a [u8]
    requires { RecordIn s.now at × (j < count_at s.now at) }
    ensures { (result.now ≡ content_at s.now at j) × (length result.now ≤ 99999) }
{
    let f = field_in(s, at, j);
    let from = f.start;
    let to = from + (f.length - 1);
    &s[from..to]
}

// The rows of the record of a DSID of `size` bytes.
fn dsid_rows(size: u32) -> [[u32; 3]; 8]
    requires { size ≤ 200000 }
    ensures { take 3 result ≡ dsid_rows size }
{
    let mut rows = [[0u32; 3]; 8];
    rows[0] = [tags::FIRST, 3, 0];
    rows[1] = [tags::DSID, size + 1, 3];
    rows[2] = [tags::DSSI, 36, size + 4];
    rows
}

// Those of the record of a DSPM of `size` bytes.
fn dspm_rows(size: u32) -> [[u32; 3]; 8]
    requires { size ≤ 200000 }
    ensures { take 2 result ≡ (808464433 ∷ 3 ∷ 0 ∷ []) ∷ (1146310733 ∷ (size + 1) ∷ 3 ∷ []) ∷ [] }
{
    let mut rows = [[0u32; 3]; 8];
    rows[0] = [tags::FIRST, 3, 0];
    rows[1] = [tags::DSPM, size + 1, 3];
    rows
}

// How many bytes the record of a DSID of `size` bytes has.
fn total_of(size: u32) -> u32
    requires { size ≤ 150000 }
    ensures { SizeFor size result }
{
    let rows = dsid_rows(size);
    base_of(rows, 3) + (40 + size)
}

// How many bytes the record of DSID, which is at `at`, has in held form.
pub fn dsid_total(s: &[u8], at: usize) -> u32
    requires { DsidIn s.now at }
    ensures { DsidSized s.now at result }
{
    let size = dsid_size(content(s, at, 1)) as u32;
    total_of(size)
}

// How many it has in the result, the update's being at `by`.
pub fn revised_total(cell: &[u8], at: usize, update: &[u8], by: usize) -> u32
    requires { DsidIn cell.now at × DsidIn update.now by }
    ensures { RevisedSized cell.now at update.now by result }
{
    let f = content(cell, at, 1);
    let g = content(update, by, 1);
    let size = revised_size(f, g) as u32;
    total_of(size)
}

// The same of the record of DSPM.
pub fn dspm_total(s: &[u8], at: usize) -> u32
    requires { DspmIn s.now at }
    ensures { (result ≡ size_of (dspm_fields (content_at s.now at 1))) × (result ≤ 200000) }
{
    let size = content(s, at, 1).len() as u32;
    let rows = dspm_rows(size);
    base_of(rows, 2) + (4 + size)
}

// 0001 with this number, and its 1E.
fn put_number(number: u32, out: &mut [u8], place: usize) -> usize
    requires { place + 3 ≤ length out.old }
    ensures { Wrote out.old place (bytes_of 2 number ++ (30 ∷ [])) out.new result × (result ≡ place + 3) }
{
    let end = put2(out, place, number);
    put1(out, end, 30)
}

// What stands before a DSID of `size` bytes in its record.
fn put_opening(size: u32, out: &mut [u8], place: usize) -> usize
    requires { (size ≤ 150000) × (place + length (opening size) ≤ length out.old) }
    ensures { Wrote out.old place (opening size) out.new result }
{
    let rows = dsid_rows(size);
    let a = put_head(out, place, rows, 3, 40 + size);
    put_number(1, out, a)
}

// DSID, and its 1E.
fn put_named(f: &[u8], out: &mut [u8], place: usize) -> usize
    requires { Known f.now × (place + (length (dsid_bytes (dsid_of f.now)) + 1) ≤ length out.old) }
    ensures { Wrote out.old place (dsid_bytes (dsid_of f.now) ++ (30 ∷ [])) out.new result }
{
    let end = put_dsid(f, out, place);
    put1(out, end, 30)
}

// DSID of the result, and its 1E.
fn put_renamed(f: &[u8], g: &[u8], out: &mut [u8], place: usize) -> usize
    requires { Known f.now × Known g.now × (place + (length (dsid_bytes (revised (dsid_of f.now) (dsid_of g.now))) + 1) ≤ length out.old) }
    ensures { Wrote out.old place (dsid_bytes (revised (dsid_of f.now) (dsid_of g.now)) ++ (30 ∷ [])) out.new result }
{
    let end = put_revised(f, g, out, place);
    put1(out, end, 30)
}

// DSSI with these counts and the levels of the record at `at`, and its 1E.
fn put_counts(s: &[u8], at: usize, t: Tally, out: &mut [u8], place: usize) -> usize
    requires { DsidIn s.now at × (place + 36 ≤ length out.old) }
    ensures { Wrote out.old place (dssi_in s.now at t ++ (30 ∷ [])) out.new result }
{
    let l = levels_at(s, at);
    let end = put_dssi(l.aall, l.nall, t, out, place);
    put1(out, end, 30)
}

// The record of DSID, which is at `at`, with these counts.
pub fn put_dsid_record(s: &[u8], at: usize, t: Tally, out: &mut [u8], place: usize) -> usize
    requires { DsidIn s.now at × (place + size_of (dsid_fields (dsid_in s.now at) (dssi_in s.now at t)) ≤ length out.old) }
    ensures { Wrote out.old place (record_bytes (dsid_fields (dsid_in s.now at) (dssi_in s.now at t))) out.new result }
{
    let f = content(s, at, 1);
    let size = dsid_size(f) as u32;
    let a = put_opening(size, out, place);
    let b = put_named(f, out, a);
    put_counts(s, at, t, out, b)
}

// The record of DSID in the result, with these counts: the cell's is at `at`, the update's at `by`.
pub fn put_revised_record(
    cell: &[u8],
    at: usize,
    update: &[u8],
    by: usize,
    t: Tally,
    out: &mut [u8],
    place: usize,
) -> usize
    requires { DsidIn cell.now at
        × DsidIn update.now by
        × (place + size_of (dsid_fields (revised_in cell.now at update.now by) (dssi_in cell.now at t)) ≤ length out.old) }
    ensures { Wrote out.old place (record_bytes (dsid_fields (revised_in cell.now at update.now by) (dssi_in cell.now at t)))
        out.new result }
{
    let f = content(cell, at, 1);
    let g = content(update, by, 1);
    let size = revised_size(f, g) as u32;
    let a = put_opening(size, out, place);
    let b = put_renamed(f, g, out, a);
    put_counts(cell, at, t, out, b)
}

// The fields of the record of DSPM.
fn put_dspm_fields(f: &[u8], out: &mut [u8], place: usize) -> usize
    requires { place + (4 + length f.now) ≤ length out.old }
    ensures { Wrote out.old place (body_of (dspm_fields f.now)) out.new result }
{
    let a = put_number(2, out, place);
    let b = copy(f, out, a);
    put1(out, b, 30)
}

// The record of DSPM, which is at `at`.
pub fn put_dspm_record(s: &[u8], at: usize, out: &mut [u8], place: usize) -> usize
    requires { DspmIn s.now at × (place + size_of (dspm_fields (content_at s.now at 1)) ≤ length out.old) }
    ensures { Wrote out.old place (record_bytes (dspm_fields (content_at s.now at 1))) out.new result }
{
    let f = content(s, at, 1);
    let size = f.len() as u32;
    let rows = dspm_rows(size);
    let a = put_head(out, place, rows, 2, 4 + size);
    put_dspm_fields(f, out, a)
}
