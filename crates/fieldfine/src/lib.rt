// One field of a record, all but its framing decided in one go: that it may stand there and is declared,
// that its subfields fill it, that its values are good. It promises the walk over a record that where
// it answers the field's kind, `layout` and `fieldvalue` find no fault in the field; where it answers
// START, nothing is promised, and their general code decides.
#![tactic(auto)]

pub mod place;
pub mod single;
pub mod text;

ghost use Rattle.std.specs.Prelude.{ℕ, ◌≡◌, length, false};
ghost use Rattle.fieldfine.specs.Told.{content_in, PlainTold};
ghost use Rattle.fieldfine.specs.Text.{Ended};
ghost use Rattle.fieldfine.specs.Place.{PlainField, FieldTold};
ghost use Rattle.fieldvalue.specs.Value.{is_attributes};

use crate::place::{attributes_field, groups_field, pointers_field, single_field};
use crate::single::{frid_field, vrid_field};
use fieldvalue::value::plain_fault;
use layout::fill::filled;
use layout::place::{START, placed};
use table::{kind_of, kinds, sizes, tags};

// The content of a field that no ordinary vector or feature has, by the general code.
fn rare_fine(c: &[u8], k: usize, update: bool) -> bool
    requires { is_attributes k ≡ false }
    ensures { PlainTold update k c.now result }
{
    if !filled(c, k) {
        return false;
    }
    plain_fault(c, k, update).is_ok()
}

// A field that no ordinary vector or feature has at this place: in a cell's general records, in an
// update, or a list of soundings. Lists of attributes aren't among them.
fn rare_field(c: &[u8], tag: u32, prev: usize, marks: &[u8], update: bool, stage: usize) -> usize
    requires { length marks.now ≡ 20 }
    ensures { PlainField update stage marks.now prev tag c.now result }
{
    let k = kind_of(tag);
    if k == kinds::ATTV {
        return START;
    }
    if k == kinds::ATTF {
        return START;
    }
    if k == kinds::NATF {
        return START;
    }
    if marks[k] != 1 {
        return START;
    }
    if !placed(update, stage, prev, k) {
        return START;
    }
    if !rare_fine(c, k, update) {
        return START;
    }
    k
}

// A field at the front of a record.
fn front_field(c: &[u8], tag: u32, prev: usize, marks: &[u8], update: bool, stage: usize) -> usize
    requires { length marks.now ≡ 20 }
    ensures { PlainField update stage marks.now prev tag c.now result }
{
    if tag == tags::FIRST {
        return single_field(c.len(), sizes::FIRST, marks, prev, START, kinds::FIRST);
    }
    if tag == tags::VRID {
        return vrid_field(c, marks, prev, stage, update);
    }
    if tag == tags::FRID {
        return frid_field(c, marks, prev, stage, update);
    }
    rare_field(c, tag, prev, marks, update, stage)
}

// A field behind the VRID of a vector, no list of attributes.
fn vector_plain(c: &[u8], tag: u32, prev: usize, marks: &[u8], update: bool, stage: usize) -> usize
    requires { length marks.now ≡ 20 }
    ensures { PlainField update stage marks.now prev tag c.now result }
{
    if tag == tags::SG2D {
        return groups_field(c.len(), sizes::SG2D, marks, prev, kinds::VRID, kinds::SG2D);
    }
    if tag == tags::VRPT {
        return groups_field(c.len(), sizes::VRPT, marks, prev, kinds::VRID, kinds::VRPT);
    }
    rare_field(c, tag, prev, marks, update, stage)
}

// A field behind the FRID of a feature, no list of attributes.
fn feature_plain(d: &[u8], tag: u32, prev: usize, marks: &[u8], update: bool, stage: usize) -> usize
    requires { Ended d.now × (length marks.now ≡ 20) }
    ensures { PlainField update stage marks.now prev tag (content_in d.now) result }
{
    let from: usize = 0;
    let n = d.len() - 1;
    if tag == tags::FSPT {
        return groups_field(n, sizes::FSPT, marks, prev, kinds::FOID, kinds::FSPT);
    }
    if tag == tags::FOID {
        return single_field(n, sizes::FOID, marks, prev, kinds::FRID, kinds::FOID);
    }
    if tag == tags::FFPT {
        return pointers_field(d, marks, prev, kinds::FOID, kinds::FFPT);
    }
    rare_field(&d[from..n], tag, prev, marks, update, stage)
}

// A field behind the VRID of a vector.
fn vector_field(
    d: &[u8],
    tag: u32,
    prev: usize,
    marks: &[u8],
    update: bool,
    stage: usize,
    table: &mut [u32],
    stamp: u32,
    fresh: u32,
) -> usize
    requires { Ended d.now × (length marks.now ≡ 20) × (length table.old ≡ 65536) }
    ensures { (aall nall : ℕ) → FieldTold update stage marks.now aall nall prev tag (content_in d.now)
        stamp fresh table.old table.new result }
{
    if tag == tags::ATTV {
        return attributes_field(
            d,
            marks,
            prev,
            kinds::VRID,
            kinds::ATTV,
            update,
            false,
            table,
            stamp,
            fresh,
        );
    }
    let from: usize = 0;
    let n = d.len() - 1;
    vector_plain(&d[from..n], tag, prev, marks, update, stage)
}

// A field behind the FRID of a feature.
fn feature_field(
    d: &[u8],
    tag: u32,
    prev: usize,
    marks: &[u8],
    update: bool,
    stage: usize,
    aall: u32,
    nall: u32,
    table: &mut [u32],
    stamp: u32,
    fresh: u32,
) -> usize
    requires { Ended d.now × (length marks.now ≡ 20) × (length table.old ≡ 65536) }
    ensures { FieldTold update stage marks.now aall nall prev tag (content_in d.now) stamp fresh table.old table.new result }
{
    if tag == tags::ATTF {
        return attributes_field(
            d,
            marks,
            prev,
            kinds::FOID,
            kinds::ATTF,
            update,
            aall == 1,
            table,
            stamp,
            fresh,
        );
    }
    if tag == tags::NATF {
        return attributes_field(
            d,
            marks,
            prev,
            kinds::FOID,
            kinds::NATF,
            update,
            nall == 1,
            table,
            stamp,
            fresh,
        );
    }
    feature_plain(d, tag, prev, marks, update, stage)
}

// The field of this tag behind one of kind `prev`, its bytes d with the closing 1E: its kind where it is
// fine, else START. A list of attributes that goes on keeps its stamp, one that begins has the fresh
// one.
pub fn field_fine(
    d: &[u8],
    tag: u32,
    prev: usize,
    marks: &[u8],
    update: bool,
    stage: usize,
    aall: u32,
    nall: u32,
    table: &mut [u32],
    stamp: u32,
    fresh: u32,
) -> usize
    requires { Ended d.now × (length marks.now ≡ 20) × (length table.old ≡ 65536) }
    ensures { FieldTold update stage marks.now aall nall prev tag (content_in d.now) stamp fresh table.old table.new result }
{
    if prev < kinds::FRID {
        return vector_field(d, tag, prev, marks, update, stage, table, stamp, fresh);
    }
    if prev < kinds::FIRST {
        return feature_field(
            d, tag, prev, marks, update, stage, aall, nall, table, stamp, fresh,
        );
    }
    let from: usize = 0;
    let n = d.len() - 1;
    front_field(&d[from..n], tag, prev, marks, update, stage)
}
