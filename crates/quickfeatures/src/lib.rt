// Whether a feature has no fault of topology, quickly: its lists lie where `spans` says; its FSPT are
// gone through once, each judged, looked up where it is guessed, and, of an area, followed along its
// ring; its LNAM are looked up where they are guessed. It promises one way only: where it says yes,
// the rules of `shape` and `ring` and those of Pointer find no fault; where it says no, the general
// code decides.
#![tactic(auto)]

ghost use Rattle.std.specs.Prelude.{◌≡◌};
ghost use Rattle.items.specs.Identity.{id_at, rcnm_at};
ghost use Rattle.items.specs.Item.{item_at};
ghost use Rattle.items.specs.Premises.{Identified};
ghost use Rattle.names.specs.Premises.{Noted};
ghost use Rattle.spans.specs.Spans.{Reached, SpanIn};
ghost use Rattle.quickfeatures.specs.Quick.{SpatialsTold, Drawn};

use iso8211::field::Record;
use lnams::lnams_quick;
use lookups::starts::Starts;
use octets::number::{get1, get2};
use rings::rings_quick;
use shape::spatial::spatial_count;
use spans::{Span, two_spans_of};
use spatial::names_quick;
use table::{offsets, sizes, tags};
use values::class::is_collection;

pub mod lnams;
pub mod rings;
pub mod spatial;
pub mod trod;

// Whether the FSPT of a feature are those of its primitive, and none exactly if it is a collection,
// all are there, and those of an area run in closed rings.
fn spatials_quick(
    s: &[u8],
    sp: Span,
    prim: u32,
    collection: bool,
    work: &[u8],
    m: usize,
    v: usize,
    starts: Starts,
) -> bool
    requires { SpanIn s.now sp × Noted work.now m v }
    ensures { SpatialsTold s.now sp prim collection work.now m v result }
{
    let from = sp.from;
    let to = sp.to;
    if to < from {
        return false;
    }
    if prim == 255 {
        if !collection {
            return false;
        }
        return from == to;
    }
    if collection {
        return false;
    }
    if !spatial_count(prim, (to - from) / sizes::FSPT) {
        return false;
    }
    if prim == 3 {
        return rings_quick(s, from, to, work, m, v, starts);
    }
    names_quick(s, from, to, prim, work, m, v, starts)
}

// Whether the feature at `at` has no fault: its identifier field starts at `id`, field 3 at `due`.
pub fn feature_quick(
    r: &Record,
    id: usize,
    due: usize,
    work: &[u8],
    m: usize,
    v: usize,
    starts: Starts,
) -> bool
    requires { Reached r.now.file.now r.now.at r.now.head 3 due × Identified r.now.file.now r.now.at
        × (id ≡ id_at r.now.file.now r.now.at) × (rcnm_at r.now.file.now r.now.at ≡ 100) × Noted work.now m v }
    ensures { Drawn work.now m v (item_at r.now.file.now r.now.at) result }
{
    let sp = two_spans_of(r, 3, due, tags::FFPT, tags::FSPT);
    let related = sp.one;
    let spatial = sp.two;
    let prim = get1(r.file, id + offsets::FRID_PRIM);
    let collection = is_collection(get2(r.file, id + offsets::FRID_OBJL));
    if !spatials_quick(r.file, spatial, prim, collection, work, m, v, starts) {
        return false;
    }
    lnams_quick(r.file, related, work, m, v)
}
