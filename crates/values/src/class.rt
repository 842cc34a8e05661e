// Item classes by their ranges.
ghost use Rattle.std.specs.Prelude.{◌≡◌};
ghost use Rattle.values.specs.Class.{is_geo, is_meta, is_collection, objl_good};

use crate::rule::within;

pub fn is_geo(objl: u32) -> bool
    ensures { result ≡ is_geo objl }
{
    within(objl, 1, 299)
}

pub fn is_meta(objl: u32) -> bool
    ensures { result ≡ is_meta objl }
{
    within(objl, 300, 399)
}

pub fn is_collection(objl: u32) -> bool
    ensures { result ≡ is_collection objl }
{
    within(objl, 400, 401)
}

// Whether the label is in one of the three ranges.
pub fn objl_good(objl: u32) -> bool
    ensures { result ≡ objl_good objl }
{
    if is_geo(objl) {
        return true;
    }
    if is_meta(objl) {
        return true;
    }
    is_collection(objl)
}
