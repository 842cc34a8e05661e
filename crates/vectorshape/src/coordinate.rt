// Coordinates and their limits.
ghost use Rattle.std.specs.Prelude.{◌≤◌, false, ◌≡◌, length};
ghost use Rattle.headvalues.specs.Dspm.{most_comf};
ghost use Rattle.entries.specs.Entries.{entries_of};
ghost use Rattle.entries.specs.Rules.{all_of};
ghost use Rattle.table.specs.Table.{row_of};
ghost use Rattle.items.specs.Lists.{entries_at};
ghost use Rattle.items.specs.Item.{item_at};
ghost use Rattle.vectorshape.specs.Shape.{magnitude, pair_good, coordinates_good};
ghost use Rattle.items.specs.Premises.{LaidOut, Listed};

use iso8211::field::Record;
use items::cursor::begin;
use items::step::part;
use octets::number::get4;
use table::{kinds, offsets, sizes};

// How far from 0 a signed number of four bytes is.
fn magnitude_of(u: u32) -> u64
    ensures { result ≡ magnitude u }
{
    u64::from(u.cast_signed().unsigned_abs())
}

// Whether Y and X of a pair or a sounding are within their limits.
fn pair_good(e: &[u8], comf: u32) -> bool
    requires { (8 ≤ length e.now) × (comf ≤ most_comf) }
    ensures { result ≡ pair_good comf e.now }
{
    let degree = comf as u64;
    let y = magnitude_of(get4(e, 0));
    if 90 * degree < y {
        return false;
    }
    let x = magnitude_of(get4(e, offsets::XCOO));
    x <= 180 * degree
}

// Whether those of a part of a list all are, its entries having `size` bytes each.
fn part_pairs(part: &[u8], size: usize, comf: u32) -> bool
    requires { (8 ≤ size) × (comf ≤ most_comf) }
    ensures { result ≡ all_of (pair_good comf) (entries_of (record { fixed = size; unit = 0 }) part.now) }
{
    part.chunks_exact(size).all(|e| pair_good(e, comf))
}

// Whether those of the list of kind k, pairs or soundings of `size` bytes, all are.
fn pairs_good(r: &Record, k: usize, size: usize, comf: u32) -> bool
    requires { Listed r.now.file.now r.now.at r.now.head k × ((row_of k).fixed ≡ size) × ((row_of k).text ≡ false) × (8 ≤ size) × (comf ≤ most_comf) }
    ensures { result ≡ all_of (pair_good comf) (entries_at r.now.file.now r.now.at k) }
{
    let mut c = begin();
    while let Some((from, to, after)) = part(r, k, c) {
        if !part_pairs(&r.file[from..to], size, comf) {
            return false;
        }
        c = after;
    }
    true
}

// Whether all coordinates of the record are.
pub fn coordinates_good(r: &Record, comf: u32) -> bool
    requires { LaidOut r.now.file.now r.now.at × (comf ≤ most_comf) }
    ensures { result ≡ coordinates_good comf (item_at r.now.file.now r.now.at) }
{
    if !pairs_good(r, kinds::SG2D, sizes::SG2D, comf) {
        return false;
    }
    pairs_good(r, kinds::SG3D, sizes::SG3D, comf)
}
