// What of an object no update may change: FOID, PRIM, GRUP and OBJL of a feature. A vector has none of
// them.
ghost use Rattle.std.specs.Prelude.{◌&&◌, ◌≡◌, eqb};
ghost use Rattle.items.specs.Identity.{id_at, rcnm_at, prim_at, objl_at, foid_at};
ghost use Rattle.changes.specs.Amend.{identity_same};
ghost use Rattle.items.specs.Premises.{LaidOut, Featured, Identified};
ghost use Rattle.items.specs.Item.{grup_at, item_at};

use iso8211::field::Record;
use items::identity::{foid_of, objl_of, prim_of, rcnm_of};
use octets::number::get1;
use table::offsets;

// Where the identifier field starts.
fn id_at(r: &Record) -> usize
    requires { LaidOut r.now.file.now r.now.at }
    ensures { result ≡ id_at r.now.file.now r.now.at }
{
    let f = r.field(1);
    f.start
}

// GRUP of a feature.
fn grup_of(r: &Record) -> u32
    requires { LaidOut r.now.file.now r.now.at × Featured r.now.file.now r.now.at }
    ensures { result ≡ grup_at r.now.file.now r.now.at }
{
    let id = id_at(r);
    get1(r.file, id + offsets::FRID_GRUP)
}

// Whether two features have one FOID, PRIM, GRUP and OBJL.
fn features_same(a: &Record, b: &Record) -> bool
    requires { LaidOut a.now.file.now a.now.at × Featured a.now.file.now a.now.at × LaidOut b.now.file.now b.now.at × Featured b.now.file.now b.now.at }
    ensures { result ≡ (eqb (foid_at a.now.file.now a.now.at) (foid_at b.now.file.now b.now.at) && (eqb (prim_at a.now.file.now a.now.at) (prim_at b.now.file.now b.now.at)
        && (eqb (grup_at a.now.file.now a.now.at) (grup_at b.now.file.now b.now.at) && eqb (objl_at a.now.file.now a.now.at) (objl_at b.now.file.now b.now.at)))) }
{
    if foid_of(a) != foid_of(b) {
        return false;
    }
    if prim_of(a) != prim_of(b) {
        return false;
    }
    if grup_of(a) != grup_of(b) {
        return false;
    }
    objl_of(a) == objl_of(b)
}

// Whether a record of an update has the identity of the object of its class that it names.
pub fn identity_same(a: &Record, b: &Record) -> bool
    requires { LaidOut a.now.file.now a.now.at × Identified a.now.file.now a.now.at × LaidOut b.now.file.now b.now.at × Identified b.now.file.now b.now.at
        × (rcnm_at a.now.file.now a.now.at ≡ rcnm_at b.now.file.now b.now.at) }
    ensures { result ≡ identity_same (item_at a.now.file.now a.now.at) (item_at b.now.file.now b.now.at) }
{
    if rcnm_of(a) != 100 {
        return true;
    }
    features_same(a, b)
}
