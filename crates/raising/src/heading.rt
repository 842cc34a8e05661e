// What stands in a record before its lists, written in front of lists that stand from 256 on: leader
// and directory, 0001, the identifier fields with their version raised by 1.
ghost use Rattle.std.specs.Prelude.{◌+◌, ◌-◌, ◌≤◌, ◌<◌, ◌++◌, ◌≡◌, length, take};
ghost use Rattle.octets.specs.Area.{Wrote};
ghost use Rattle.iso8211.specs.Field.{field_at};
ghost use Rattle.items.specs.Identity.{id_at, version_at};
ghost use Rattle.records.specs.Written.{head_bytes};
ghost use Rattle.itemrows.specs.Joined.{list_rows, sum_of, Small};
ghost use Rattle.raising.specs.Record.{vector_head, feature_head, version_bytes, id_front, foid_bytes};
ghost use Rattle.items.specs.Premises.{LaidOut, Identified, Featured};
ghost use Rattle.table.specs.Offsets.{VRID_RVER, FRID_RVER};

use iso8211::field::Record;
use itemrows::lead::{feature_rows, put_lead, vector_rows};
use itemrows::rows::{count_of, list_rows, sum_of};
use items::identity::version_of;
use octets::area::copy;
use octets::number::{put1, put2};
use records::head::{base_of, put_head};
use table::{offsets, tags};

// Leader and directory of a record with m identifier fields, which have `fixed` bytes with 0001, and
// four lists; the rows are those before the lists. The answer is where the record starts.
fn put_heading(
    m: usize,
    fixed: u32,
    rows: [[u32; 3]; 8],
    tags: [u32; 4],
    totals: [u32; 4],
    room: &mut [u8],
) -> usize
    requires { (m ≤ 2) × (fixed ≤ 25) × Small totals × (256 ≤ length room.old) }
    ensures { Wrote room.old result (head_bytes (take (1 + m) rows ++ list_rows fixed tags totals) (fixed + sum_of totals)) room.new (256 - fixed)
        × (1 ≤ result) }
{
    let all = list_rows(rows, 1 + m, fixed, tags, totals);
    let n = 1 + m + count_of(totals);
    let body = fixed + sum_of(totals);
    let place = 256 - fixed as usize - base_of(all, n) as usize;
    put_head(room, place, all, n, body);
    place
}

// RVER, RUIN 1 and the 1E.
fn put_version(out: &mut [u8], at: usize, v: u32) -> usize
    requires { at + 4 ≤ length out.old }
    ensures { Wrote out.old at (version_bytes v) out.new result × (result ≡ at + 4) }
{
    let a = put2(out, at, v);
    let b = put1(out, a, 1);
    put1(out, b, 30)
}

// 0001 and n bytes of the identifier field, those before RVER, then the rest of it.
fn put_identity(cell: &Record, n: usize, room: &mut [u8], place: usize) -> usize
    requires { LaidOut cell.now.file.now cell.now.at × Identified cell.now.file.now cell.now.at × (version_at cell.now.file.now cell.now.at < 65535)
        × (id_at cell.now.file.now cell.now.at + n ≤ length cell.now.file.now) × (place + (7 + n) ≤ length room.old) }
    ensures { Wrote room.old place (id_front cell.now.file.now cell.now.at n (version_at cell.now.file.now cell.now.at + 1)) room.new result
        × (result ≡ place + (7 + n)) }
{
    let v = version_of(cell);
    let f = cell.field(1);
    let from = f.start;
    let a = put_lead(cell.file, from, n, room, place, 0);
    put_version(room, a, v + 1)
}

// Where the eight bytes of FOID stand.
fn foid_place(cell: &Record) -> usize
    requires { Featured cell.now.file.now cell.now.at }
    ensures { (result ≡ (field_at cell.now.file.now cell.now.at 2).start) × (result + 8 ≤ length cell.now.file.now) }
{
    let f = cell.field(2);
    f.start
}

// FOID with its 1E, as it stands.
fn put_foid(cell: &Record, room: &mut [u8], place: usize) -> usize
    requires { Featured cell.now.file.now cell.now.at × (place + 9 ≤ length room.old) }
    ensures { Wrote room.old place (foid_bytes cell.now.file.now cell.now.at) room.new result × (result ≡ place + 9) }
{
    let from = foid_place(cell);
    let to = from + 8;
    let a = copy(&cell.file[from..to], room, place);
    put1(room, a, 30)
}

// All that stands before the lists of a vector.
pub fn put_vector(cell: &Record, totals: [u32; 4], room: &mut [u8]) -> usize
    requires { LaidOut cell.now.file.now cell.now.at × Identified cell.now.file.now cell.now.at
        × (version_at cell.now.file.now cell.now.at < 65535) × Small totals
        × (256 ≤ length room.old) }
    ensures { Wrote room.old result (vector_head totals ++ id_front cell.now.file.now cell.now.at VRID_RVER
        (version_at cell.now.file.now cell.now.at + 1)) room.new 256
        × (1 ≤ result) }
{
    let rows = vector_rows();
    let tags = [tags::ATTV, tags::VRPT, tags::SG2D, tags::SG3D];
    let place = put_heading(1, 12, rows, tags, totals, room);
    put_identity(cell, offsets::VRID_RVER, room, 244);
    place
}

// All that stands before the lists of a feature.
pub fn put_feature(cell: &Record, totals: [u32; 4], room: &mut [u8]) -> usize
    requires { LaidOut cell.now.file.now cell.now.at × Identified cell.now.file.now cell.now.at × Featured cell.now.file.now cell.now.at
        × (version_at cell.now.file.now cell.now.at < 65535) × Small totals
        × (256 ≤ length room.old) }
    ensures { Wrote room.old result
        (feature_head totals ++ (id_front cell.now.file.now cell.now.at FRID_RVER
        (version_at cell.now.file.now cell.now.at + 1) ++ foid_bytes cell.now.file.now cell.now.at)) room.new 256
        × (1 ≤ result) }
{
    let rows = feature_rows();
    let tags = [tags::ATTF, tags::NATF, tags::FFPT, tags::FSPT];
    let place = put_heading(2, 25, rows, tags, totals, room);
    let a = put_identity(cell, offsets::FRID_RVER, room, 231);
    put_foid(cell, room, a);
    place
}
