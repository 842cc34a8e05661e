// The shape of a vector: an isolated node, a connected node or an edge.
ghost use Rattle.std.specs.Prelude.{◌≤◌, ◌<◌, ◌≡◌, length};
ghost use Rattle.headvalues.specs.Dspm.{most_comf};
ghost use Rattle.octets.specs.Number.{byte_at};
ghost use Rattle.entries.specs.Rules.{all_of, through};
ghost use Rattle.table.specs.Table.{VRPT};
ghost use Rattle.items.specs.Lists.{entries_at};
ghost use Rattle.items.specs.Item.{item_at};
ghost use Rattle.vectorshape.specs.Shape.{isolated_good, connected_good, end_good, add_topi, edge_good, class_good, vector_good};
ghost use Rattle.items.specs.Premises.{LaidOut, Listed, Identified};

use crate::coordinate::coordinates_good;
use iso8211::field::Record;
use items::count::count;
use items::cursor::begin;
use items::identity::rcnm_of;
use items::step::next;
use octets::number::wide;
use table::{kinds, offsets};

// Whether an isolated node has one pair, or soundings alone, and no pointer.
fn isolated_good(r: &Record) -> bool
    requires { LaidOut r.now.file.now r.now.at }
    ensures { result ≡ isolated_good (item_at r.now.file.now r.now.at) }
{
    if count(r, kinds::VRPT) != 0 {
        return false;
    }
    let pairs = count(r, kinds::SG2D);
    let soundings = count(r, kinds::SG3D);
    if pairs == 1 {
        return soundings == 0;
    }
    if pairs != 0 {
        return false;
    }
    1 <= soundings
}

// Whether a connected node has one pair and no pointer.
fn connected_good(r: &Record) -> bool
    requires { LaidOut r.now.file.now r.now.at }
    ensures { result ≡ connected_good (item_at r.now.file.now r.now.at) }
{
    if count(r, kinds::VRPT) != 0 {
        return false;
    }
    if count(r, kinds::SG2D) != 1 {
        return false;
    }
    count(r, kinds::SG3D) == 0
}

// Whether a VRPT names a connected node as one end of an edge.
pub fn end_good(e: &[u8]) -> bool
    requires { 9 ≤ length e.now }
    ensures { result ≡ end_good e.now }
{
    e[0] == 120
        && e[offsets::VRPT_ORNT] == 255
        && e[offsets::VRPT_USAG] == 255
        && (1..=2).contains(&e[offsets::VRPT_TOPI])
        && e[offsets::VRPT_MASK] == 255
}

// Whether each VRPT of the record does.
fn ends_good(r: &Record) -> bool
    requires { Listed r.now.file.now r.now.at r.now.head VRPT }
    ensures { result ≡ all_of end_good (entries_at r.now.file.now r.now.at VRPT) }
{
    let mut c = begin();
    while let Some((from, to, after)) = next(r, kinds::VRPT, c) {
        if !end_good(&r.file[from..to]) {
            return false;
        }
        c = after;
    }
    true
}

// The TOPI of a VRPT.
pub fn topi_of(e: &[u8]) -> u32
    requires { 9 ≤ length e.now }
    ensures { (result ≡ byte_at e.now 7) × (result < 256) }
{
    wide(e[offsets::VRPT_TOPI])
}

// The sum of the TOPI of two VRPT.
fn topi_sum(r: &Record) -> u32
    requires { Listed r.now.file.now r.now.at r.now.head VRPT × (length (entries_at r.now.file.now r.now.at VRPT) ≡ 2) }
    ensures { result ≡ through add_topi 0 (entries_at r.now.file.now r.now.at VRPT) }
{
    let mut sum: u32 = 0;
    let mut c = begin();
    while let Some((from, to, after)) = next(r, kinds::VRPT, c) {
        sum += topi_of(&r.file[from..to]);
        c = after;
    }
    sum
}

// Whether an edge has no soundings, and two pointers, to its begin and to its end.
fn edge_good(r: &Record) -> bool
    requires { LaidOut r.now.file.now r.now.at }
    ensures { result ≡ edge_good (item_at r.now.file.now r.now.at) }
{
    if count(r, kinds::SG3D) != 0 {
        return false;
    }
    if count(r, kinds::VRPT) != 2 {
        return false;
    }
    if !ends_good(r) {
        return false;
    }
    topi_sum(r) == 3
}

// Whether a vector has the coordinates and pointers of its class.
fn class_good(r: &Record) -> bool
    requires { LaidOut r.now.file.now r.now.at × Identified r.now.file.now r.now.at }
    ensures { result ≡ class_good (item_at r.now.file.now r.now.at) }
{
    let rcnm = rcnm_of(r);
    if rcnm == 110 {
        return isolated_good(r);
    }
    if rcnm == 120 {
        return connected_good(r);
    }
    edge_good(r)
}

// Whether a vector has them, and its coordinates are within their limits.
pub fn vector_good(r: &Record, comf: u32) -> bool
    requires { LaidOut r.now.file.now r.now.at × Identified r.now.file.now r.now.at × (comf ≤ most_comf) }
    ensures { result ≡ vector_good comf (item_at r.now.file.now r.now.at) }
{
    if !class_good(r) {
        return false;
    }
    coordinates_good(r, comf)
}
