// DSSI's counts against the records of a cell: one pass over the records, then six comparisons.
ghost use Rattle.std.specs.Prelude.{◌+◌, ◌≤◌, false, cond, ◌≡◌, length, eqb};
ghost use Rattle.octets.specs.Number.{num_at};
ghost use Rattle.iso8211.specs.File.{record_at};
ghost use Rattle.counted.specs.Counts.{counts_good};
ghost use Rattle.counted.specs.Tallies.{with_vector, with_feature, with_record, tally_of, AtMost, vectors_good, tally_good};
ghost use Rattle.items.specs.Premises.{LaidOut, Identified};
ghost use Rattle.names.specs.Premises.{Readable};
ghost use Rattle.layout.specs.Premises.{DssiThere};

use iso8211::field::{Record, head_of, record_end};
use items::identity::{objl_of, rcnm_of};
use octets::number::get4;
use table::offsets;
use values::class::{is_collection, is_geo, is_meta};

// How many records of each kind that DSSI counts.
#[derive(Clone, Copy)]
pub struct Tally {
    pub meta: u32,
    pub geo: u32,
    pub collection: u32,
    pub isolated: u32,
    pub connected: u32,
    pub edges: u32,
}

// 1 for a record that is such, 0 for another.
fn one(is: bool) -> u32
    ensures { (result ≡ cond is 1 0) × (result ≤ 1) }
{
    u32::from(is)
}

// The tally with a vector of this RCNM.
pub fn add_vector(t: Tally, rcnm: u32) -> Tally
    requires { AtMost 5242880 t }
    ensures { result ≡ with_vector t rcnm }
{
    Tally {
        meta: t.meta,
        geo: t.geo,
        collection: t.collection,
        isolated: t.isolated + one(rcnm == 110),
        connected: t.connected + one(rcnm == 120),
        edges: t.edges + one(rcnm == 130),
    }
}

// The tally with a feature of this class.
pub fn add_feature(t: Tally, objl: u32) -> Tally
    requires { AtMost 5242880 t }
    ensures { result ≡ with_feature t objl }
{
    Tally {
        meta: t.meta + one(is_meta(objl)),
        geo: t.geo + one(is_geo(objl)),
        collection: t.collection + one(is_collection(objl)),
        isolated: t.isolated,
        connected: t.connected,
        edges: t.edges,
    }
}

// The tally with the record at `at`.
fn add(t: Tally, r: &Record) -> Tally
    requires { AtMost 5242880 t × LaidOut r.now.file.now r.now.at × Identified r.now.file.now r.now.at }
    ensures { result ≡ with_record t r.now.file.now r.now.at }
{
    let rcnm = rcnm_of(r);
    if rcnm == 100 {
        return add_feature(t, objl_of(r));
    }
    add_vector(t, rcnm)
}

// Where the first vector or feature of a cell stands.
pub fn third_at(s: &[u8], n: usize) -> usize
    requires { Readable false s.now n }
    ensures { result ≡ record_at s.now 3 }
{
    let first = record_end(s, 0);
    let second = record_end(s, first);
    record_end(s, second)
}

// The tally of all vectors and features of a cell of n records.
fn tally_of(s: &[u8], n: usize) -> Tally
    requires { Readable false s.now n }
    ensures { result ≡ tally_of s.now n }
{
    let mut t = Tally {
        meta: 0,
        geo: 0,
        collection: 0,
        isolated: 0,
        connected: 0,
        edges: 0,
    };
    let mut at = third_at(s, n);
    for _ in 3..n {
        let h = head_of(s, at);
        let r = Record {
            file: s,
            at,
            head: h,
        };
        t = add(t, &r);
        at = record_end(s, at);
    }
    t
}

// Whether the four bytes at p are the number `count`.
fn is_count(s: &[u8], p: usize, count: u32) -> bool
    requires { p + 4 ≤ length s.now }
    ensures { result ≡ eqb (num_at s.now p 4) count }
{
    get4(s, p) == count
}

// Whether the DSSI at p has the vectors' counts of t.
fn vectors_good(s: &[u8], p: usize, t: Tally) -> bool
    requires { p + 35 ≤ length s.now }
    ensures { result ≡ vectors_good s.now p t }
{
    if !is_count(s, p + offsets::DSSI_NOIN, t.isolated) {
        return false;
    }
    if !is_count(s, p + offsets::DSSI_NOCN, t.connected) {
        return false;
    }
    is_count(s, p + offsets::DSSI_NOED, t.edges)
}

// Whether the DSSI at p has the counts of t.
fn tally_good(s: &[u8], p: usize, t: Tally) -> bool
    requires { p + 35 ≤ length s.now }
    ensures { result ≡ tally_good s.now p t }
{
    if !is_count(s, p + offsets::DSSI_NOMR, t.meta) {
        return false;
    }
    if !is_count(s, p + offsets::DSSI_NOGR, t.geo) {
        return false;
    }
    if !is_count(s, p + offsets::DSSI_NOLR, t.collection) {
        return false;
    }
    vectors_good(s, p, t)
}

// Whether DSSI counts the records of a cell of n records truly, whose tally is t.
pub fn tally_counts(s: &[u8], n: usize, t: Tally) -> bool
    requires { Readable false s.now n × DssiThere s.now × (t ≡ tally_of s.now n) }
    ensures { result ≡ counts_good s.now n }
{
    let at = record_end(s, 0);
    let f = Record {
        file: s,
        at,
        head: head_of(s, at),
    }
    .field(2);
    let start = f.start;
    tally_good(s, start, t)
}

// The same, the records being tallied here.
pub fn counts_good(s: &[u8], n: usize) -> bool
    requires { Readable false s.now n × DssiThere s.now }
    ensures { result ≡ counts_good s.now n }
{
    tally_counts(s, n, tally_of(s, n))
}
