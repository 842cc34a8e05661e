// The shape of a feature: a point, a line, an area, or a collection without geometry.
ghost use Rattle.std.specs.Prelude.{◌≡◌};
ghost use Rattle.entries.specs.Entries.{entries_of};
ghost use Rattle.entries.specs.Rules.{all_of};
ghost use Rattle.table.specs.Table.{FSPT};
ghost use Rattle.items.specs.Lists.{entries_at};
ghost use Rattle.items.specs.Item.{item_at};
ghost use Rattle.vectorshape.specs.Shape.{spatial_good, feature_good};
ghost use Rattle.items.specs.Premises.{LaidOut, Listed, Featured};
ghost use Rattle.items.specs.Identity.{rcnm_at};

use crate::spatial::{spatial_count, spatial_good};
use iso8211::field::Record;
use items::count::count;
use items::cursor::begin;
use items::identity::{objl_of, prim_of};
use items::step::part;
use table::{kinds, sizes};
use values::class::is_collection;

// Whether each FSPT of a part of the list is one that the primitive wants.
fn part_spatials(part: &[u8], prim: u32) -> bool
    ensures { result ≡ all_of (spatial_good prim) (entries_of (record { fixed = 8; unit = 0 }) part.now) }
{
    part.chunks_exact(sizes::FSPT)
        .all(|e| spatial_good(e, prim))
}

// Whether each FSPT of the record is one.
fn spatials_good(r: &Record, prim: u32) -> bool
    requires { Listed r.now.file.now r.now.at r.now.head FSPT }
    ensures { result ≡ all_of (spatial_good prim) (entries_at r.now.file.now r.now.at FSPT) }
{
    let mut c = begin();
    while let Some((from, to, after)) = part(r, kinds::FSPT, c) {
        if !part_spatials(&r.file[from..to], prim) {
            return false;
        }
        c = after;
    }
    true
}

// Whether a feature has the pointers of its primitive, and none exactly if it is a collection.
pub fn feature_good(r: &Record) -> bool
    requires { LaidOut r.now.file.now r.now.at × Featured r.now.file.now r.now.at × (rcnm_at r.now.file.now r.now.at ≡ 100) }
    ensures { result ≡ feature_good (item_at r.now.file.now r.now.at) }
{
    let prim = prim_of(r);
    let collection = is_collection(objl_of(r));
    if prim == 255 {
        if !collection {
            return false;
        }
        return count(r, kinds::FSPT) == 0;
    }
    if collection {
        return false;
    }
    if !spatial_count(prim, count(r, kinds::FSPT)) {
        return false;
    }
    spatials_good(r, prim)
}
