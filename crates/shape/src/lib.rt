// Document 01's Shape of one record: whether a vector has the coordinates and pointers of its class
// and a feature the pointers of its primitive, and whether what stands in them is allowed. It takes a
// vector's shape from `vectorshape`, the lists and the identity of a laid-out record from `items`, the
// collections from `values`.
#![tactic(auto)]

ghost use Rattle.std.specs.Prelude.{◌≤◌, ◌≡◌};
ghost use Rattle.headvalues.specs.Dspm.{most_comf};
ghost use Rattle.items.specs.Premises.{LaidOut, Identified};
ghost use Rattle.items.specs.Item.{item_at};
ghost use Rattle.vectorshape.specs.Shape.{shape_good, shape_code};

use answers::codes::SHAPE;
use feature::feature_good;
use iso8211::field::Record;
use items::identity::rcnm_of;
use vectorshape::vector::vector_good;

pub mod feature;
pub mod spatial;

// Whether the record at `at` has the shape of its class, coordinates being counted in parts of
// 1 / comf of a degree.
pub fn shape_good(r: &Record, comf: u32) -> bool
    requires { LaidOut r.now.file.now r.now.at × Identified r.now.file.now r.now.at × (comf ≤ most_comf) }
    ensures { result ≡ shape_good comf (item_at r.now.file.now r.now.at) }
{
    if rcnm_of(r) == 100 {
        return feature_good(r);
    }
    vector_good(r, comf)
}

// The code of the item at `at`: 0 if it has that shape.
pub fn shape_code(r: &Record, comf: u32) -> u32
    requires { LaidOut r.now.file.now r.now.at × Identified r.now.file.now r.now.at × (comf ≤ most_comf) }
    ensures { result ≡ shape_code comf (item_at r.now.file.now r.now.at) }
{
    if shape_good(r, comf) {
        return 0;
    }
    SHAPE
}
