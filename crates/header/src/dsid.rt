// DSID in held form: EDTN and UPDN without leading zeros, all else as it stands.
ghost use Rattle.std.specs.Prelude.{◌+◌, ◌≤◌, ◌≡◌, [], ◌∷◌, ◌++◌, length};
ghost use Rattle.octets.specs.Area.{Wrote};
ghost use Rattle.octets.specs.Digits.{fewest};
ghost use Rattle.header.specs.Dsid.{shortest, dsid_with, dsid_of, dsid_bytes, revised};
ghost use Rattle.header.specs.Known.{Known, EndsKnown, PartsOf, SizeWith, dated};
ghost use Rattle.dataset.specs.Dsid.{dsid_ends};

use dataset::{Ends, dsid_ends};
use octets::area::copy;
use octets::digits::{fewest_digits, get_digits, put_digits};
use octets::number::put1;

// EDTN and UPDN as numbers, and where UADT begins.
#[derive(Drop)]
pub struct Parts {
    pub edition: u32,
    pub number: u32,
    pub issue: usize,
}

// Where the texts of the DSID f end.
fn ends_of(f: &[u8]) -> Ends
    requires { Known f.now }
    ensures { (result ≡ dsid_ends f.now) × EndsKnown f.now result }
{
    dsid_ends(f)
}

pub fn parts_of(f: &[u8]) -> Parts
    requires { Known f.now }
    ensures { PartsOf f.now result }
{
    let e = ends_of(f);
    let edtn = e.dsnm + 1;
    let updn = e.edtn + 1;
    Parts {
        edition: get_digits(f, edtn, e.edtn - edtn),
        number: get_digits(f, updn, e.updn - updn),
        issue: e.updn + 1,
    }
}

// A number without leading zeros, and its 1F.
fn put_number(v: u32, out: &mut [u8], at: usize) -> usize
    requires { at + (fewest v + 1) ≤ length out.old }
    ensures { Wrote out.old at (shortest v ++ (31 ∷ [])) out.new result }
{
    let end = put_digits(out, at, fewest_digits(v), v);
    put1(out, end, 31)
}

// What stands before EDTN, and the two numbers.
fn put_names(front: &[u8], edition: u32, number: u32, out: &mut [u8], at: usize) -> usize
    requires { at + length (dsid_with front.now edition number []) ≤ length out.old }
    ensures { Wrote out.old at (dsid_with front.now edition number []) out.new result }
{
    let a = copy(front, out, at);
    let b = put_number(edition, out, a);
    put_number(number, out, b)
}

// The two dates, and what stands behind them.
fn put_dates(applied: &[u8], issued: &[u8], rest: &[u8], out: &mut [u8], at: usize) -> usize
    requires { at + length (applied.now ++ (issued.now ++ rest.now)) ≤ length out.old }
    ensures { Wrote out.old at (applied.now ++ (issued.now ++ rest.now)) out.new result }
{
    let a = copy(applied, out, at);
    let b = copy(issued, out, a);
    copy(rest, out, b)
}

// The DSID f in held form with this UPDN and these dates.
fn put_dated(
    f: &[u8],
    number: u32,
    applied: &[u8],
    issued: &[u8],
    out: &mut [u8],
    at: usize,
) -> usize
    requires { Known f.now × (at + length (dsid_bytes (dated f.now number applied.now issued.now)) ≤ length out.old) }
    ensures { Wrote out.old at (dsid_bytes (dated f.now number applied.now issued.now)) out.new result }
{
    let p = parts_of(f);
    let from: usize = 0;
    let to: usize = 20;
    let a = put_names(&f[from..to], p.edition, number, out, at);
    let rest = p.issue + 16;
    put_dates(applied, issued, &f[rest..], out, a)
}

// How many bytes the DSID f has in held form with this UPDN.
fn size_with(f: &[u8], number: u32) -> usize
    requires { Known f.now }
    ensures { SizeWith f.now number result }
{
    let p = parts_of(f);
    22 + fewest_digits(p.edition) + fewest_digits(number) + (f.len() - p.issue)
}

// How many bytes the DSID f has in held form.
pub fn dsid_size(f: &[u8]) -> usize
    requires { Known f.now }
    ensures { (result ≡ length (dsid_bytes (dsid_of f.now))) × (result ≤ length f.now + 22) }
{
    let p = parts_of(f);
    size_with(f, p.number)
}

// The DSID f in held form.
pub fn put_dsid(f: &[u8], out: &mut [u8], at: usize) -> usize
    requires { Known f.now × (at + length (dsid_bytes (dsid_of f.now)) ≤ length out.old) }
    ensures { Wrote out.old at (dsid_bytes (dsid_of f.now)) out.new result }
{
    let p = parts_of(f);
    let from = p.issue;
    let mid = from + 8;
    let to = mid + 8;
    put_dated(f, p.number, &f[from..mid], &f[mid..to], out, at)
}

// How many bytes the DSID f of a cell has in held form once the update with the DSID g is applied.
pub fn revised_size(f: &[u8], g: &[u8]) -> usize
    requires { Known f.now × Known g.now }
    ensures { (result ≡ length (dsid_bytes (revised (dsid_of f.now) (dsid_of g.now)))) × (result ≤ length f.now + 22) }
{
    let p = parts_of(g);
    size_with(f, p.number)
}

// The DSID f of a cell once the update with the DSID g is applied.
pub fn put_revised(f: &[u8], g: &[u8], out: &mut [u8], at: usize) -> usize
    requires { Known f.now × Known g.now × (at + length (dsid_bytes (revised (dsid_of f.now) (dsid_of g.now))) ≤ length out.old) }
    ensures { Wrote out.old at (dsid_bytes (revised (dsid_of f.now) (dsid_of g.now))) out.new result }
{
    let p = parts_of(g);
    let from = p.issue + 8;
    let to = from + 8;
    let issued = &g[from..to];
    put_dated(f, p.number, issued, issued, out, at)
}
