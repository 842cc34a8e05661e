// The numbers of a vector's or a feature's line.
ghost use Rattle.std.specs.Prelude.{◌+◌, ◌*◌, ◌≤◌, ◌≡◌, length};
ghost use Rattle.items.specs.Lists.{entries_at};
ghost use Rattle.items.specs.Identity.{rcnm_at};
ghost use Rattle.items.specs.Item.{item_at};
ghost use Rattle.listingrows.specs.Listing.{attributes_of, pointers_of, coordinates_of, row_of};
ghost use Rattle.items.specs.Premises.{LaidOut, Listed, Identified};
ghost use Rattle.listingrows.specs.Text.{ShortNumbers};

use iso8211::field::{Record, head_of};
use items::count::count;
use items::identity::{rcid_of, rcnm_of, version_of};
use table::kinds;

const FEATURE: u32 = 100;

// How many entries the lists of two kinds have together.
fn both_sizes(r: &Record, j: usize, k: usize) -> usize
    requires { Listed r.now.file.now r.now.at r.now.head j × Listed r.now.file.now r.now.at r.now.head k }
    ensures { (result ≡ length (entries_at r.now.file.now r.now.at j) + length (entries_at r.now.file.now r.now.at k)) × (result ≤ 2 * length r.now.file.now) }
{
    count(r, j) + count(r, k)
}

// The size of the attribute list; a feature has two.
fn attributes(r: &Record, rcnm: u32) -> usize
    requires { LaidOut r.now.file.now r.now.at × (rcnm ≡ rcnm_at r.now.file.now r.now.at) }
    ensures { (result ≡ attributes_of (item_at r.now.file.now r.now.at)) × (result ≤ 2 * length r.now.file.now) }
{
    if rcnm == FEATURE {
        return both_sizes(r, kinds::ATTF, kinds::NATF);
    }
    count(r, kinds::ATTV)
}

// The size of the pointer list; a feature has two, to features and to vectors.
fn pointers(r: &Record, rcnm: u32) -> usize
    requires { LaidOut r.now.file.now r.now.at × (rcnm ≡ rcnm_at r.now.file.now r.now.at) }
    ensures { (result ≡ pointers_of (item_at r.now.file.now r.now.at)) × (result ≤ 2 * length r.now.file.now) }
{
    if rcnm == FEATURE {
        return both_sizes(r, kinds::FFPT, kinds::FSPT);
    }
    count(r, kinds::VRPT)
}

// The size of the coordinate list; a feature has none.
fn coordinates(r: &Record, rcnm: u32) -> usize
    requires { LaidOut r.now.file.now r.now.at × (rcnm ≡ rcnm_at r.now.file.now r.now.at) }
    ensures { (result ≡ coordinates_of (item_at r.now.file.now r.now.at)) × (result ≤ 2 * length r.now.file.now) }
{
    if rcnm == FEATURE {
        return 0;
    }
    both_sizes(r, kinds::SG2D, kinds::SG3D)
}

// RCNM, RCID, RVER and the three sizes of the record at `at`.
pub fn row_at(s: &[u8], at: usize) -> [u32; 6]
    requires { LaidOut s.now at × Identified s.now at × (length s.now ≤ 65536) }
    ensures { (result ≡ row_of (item_at s.now at)) × ShortNumbers result }
{
    let h = head_of(s, at);
    let r = Record {
        file: s,
        at,
        head: h,
    };
    let rcnm = rcnm_of(&r);
    [
        rcnm,
        rcid_of(&r),
        version_of(&r),
        attributes(&r, rcnm) as u32,
        pointers(&r, rcnm) as u32,
        coordinates(&r, rcnm) as u32,
    ]
}
