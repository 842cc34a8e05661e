// What a record is: its name, its version, and of a feature its primitive, class and FOID.
ghost use Rattle.std.specs.Prelude.{◌≤◌, ◌<◌, ◌≡◌, length};
ghost use Rattle.items.specs.Identity.{id_at, rcnm_at, rcid_at, prim_at, objl_at, foid_at, rank_of, version_at, ruin_at, name_at, word_for};
ghost use Rattle.items.specs.Premises.{LaidOut, Identified, Featured, name_bound};

use crate::word;
use iso8211::field::Record;
use octets::number::{get1, get2, get4, get8};
use table::{offsets, tags};

// Where the identifier field starts. Nearly every record begins with a 0001, which has three bytes.
fn id_at(r: &Record) -> usize
    requires { LaidOut r.now.file.now r.now.at }
    ensures { result ≡ id_at r.now.file.now r.now.at }
{
    if r.tag(0) == tags::FIRST {
        return r.at + r.head.base + 3;
    }
    let f = r.field(1);
    f.start
}

// RCNM: which kind of vector, or a feature.
pub fn rcnm_of(r: &Record) -> u32
    requires { LaidOut r.now.file.now r.now.at × Identified r.now.file.now r.now.at }
    ensures { (result ≡ rcnm_at r.now.file.now r.now.at) × (result < 256) }
{
    let id = id_at(r);
    get1(r.file, id)
}

pub fn rcid_of(r: &Record) -> u32
    requires { LaidOut r.now.file.now r.now.at × Identified r.now.file.now r.now.at }
    ensures { (result ≡ rcid_at r.now.file.now r.now.at) × (result < 4294967296) }
{
    let id = id_at(r);
    get4(r.file, id + offsets::RCID)
}

// PRIM of a feature.
pub fn prim_of(r: &Record) -> u32
    requires { LaidOut r.now.file.now r.now.at × Featured r.now.file.now r.now.at }
    ensures { (result ≡ prim_at r.now.file.now r.now.at) × (result < 256) }
{
    let id = id_at(r);
    get1(r.file, id + offsets::FRID_PRIM)
}

// OBJL of a feature.
pub fn objl_of(r: &Record) -> u32
    requires { LaidOut r.now.file.now r.now.at × Featured r.now.file.now r.now.at }
    ensures { (result ≡ objl_at r.now.file.now r.now.at) × (result < 65536) }
{
    let id = id_at(r);
    get2(r.file, id + offsets::FRID_OBJL)
}

// FOID of a feature, its eight bytes as a number.
pub fn foid_of(r: &Record) -> u64
    requires { LaidOut r.now.file.now r.now.at × Featured r.now.file.now r.now.at }
    ensures { result ≡ foid_at r.now.file.now r.now.at }
{
    let f = r.field(2);
    let start = f.start;
    get8(r.file, start)
}

// RVER, which stands at another offset in a feature.
pub fn version_of(r: &Record) -> u32
    requires { LaidOut r.now.file.now r.now.at × Identified r.now.file.now r.now.at }
    ensures { (result ≡ version_at r.now.file.now r.now.at) × (result < 65536) }
{
    let id = id_at(r);
    if get1(r.file, id) == 100 {
        return get2(r.file, id + offsets::FRID_RVER);
    }
    get2(r.file, id + offsets::VRID_RVER)
}

// RUIN: 1 insert, 2 delete, 3 modify.
pub fn ruin_of(r: &Record) -> u32
    requires { LaidOut r.now.file.now r.now.at × Identified r.now.file.now r.now.at }
    ensures { (result ≡ ruin_at r.now.file.now r.now.at) × (result < 256) }
{
    let id = id_at(r);
    if get1(r.file, id) == 100 {
        return get1(r.file, id + offsets::FRID_RUIN);
    }
    get1(r.file, id + offsets::VRID_RUIN)
}

// The place of a class in held order.
pub fn rank_of(rcnm: u32) -> u64
    ensures { (result ≡ rank_of rcnm) × (result ≤ 3) }
{
    match rcnm {
        110 => 0,
        120 => 1,
        130 => 2,
        _ => 3,
    }
}

// The name as a number.
pub fn name_of(r: &Record) -> u64
    requires { LaidOut r.now.file.now r.now.at × Identified r.now.file.now r.now.at }
    ensures { (result ≡ name_at r.now.file.now r.now.at) × (result < name_bound) }
{
    let rank = rank_of(rcnm_of(r));
    let rcid = rcid_of(r) as u64;
    rank * word::CLASS_WEIGHT + rcid
}

// The name and the record's place in one word.
pub fn word_for(r: &Record) -> u64
    requires { LaidOut r.now.file.now r.now.at × Identified r.now.file.now r.now.at × (length r.now.file.now ≤ 5242880) }
    ensures { result ≡ word_for r.now.file.now r.now.at }
{
    name_of(r) * word::NAME_WEIGHT + r.at as u64
}
