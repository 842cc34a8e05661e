// What an insert and a delete may bring beside their identifier fields.
ghost use Rattle.std.specs.Prelude.{◌<◌, ◌&&◌, ◌≡◌};
ghost use Rattle.iso8211.specs.Field.{count_at};
ghost use Rattle.entries.specs.Rules.{all_of};
ghost use Rattle.items.specs.Lists.{entries_at};
ghost use Rattle.items.specs.Identity.{rcnm_at};
ghost use Rattle.edits.specs.InsertDelete.{insert_allowed, delete_allowed};
ghost use Rattle.changes.specs.Change.{amendment_at, edit_of};
ghost use Rattle.changes.specs.Amend.{kinds_of};
ghost use Rattle.allowed.specs.Brought.{is_kept, is_empty, SkipsTold, LacksTold};
ghost use Rattle.items.specs.Premises.{LaidOut, Listed, Identified};

use iso8211::field::Record;
use items::cursor::begin;
use items::identity::rcnm_of;
use items::step::next;
use joining::lists::total;
use table::{kind_of, kinds};

// Whether a record has neither of two controls.
fn no_control(r: &Record, first: usize, second: usize) -> bool
    requires { LaidOut r.now.file.now r.now.at }
    ensures { result ≡ (is_empty r.now.file.now r.now.at first && is_empty r.now.file.now r.now.at second) }
{
    if total(r, first) != 0 {
        return false;
    }
    total(r, second) == 0
}

// Whether field f of a record is of none of three kinds, told one way.
fn skips(r: &Record, f: usize, i: usize, j: usize, k: usize) -> bool
    requires { (f < count_at r.now.file.now r.now.at) }
    ensures { SkipsTold r.now.file.now r.now.at f i result × SkipsTold r.now.file.now r.now.at f j result × SkipsTold r.now.file.now r.now.at f k result }
{
    let kind = kind_of(r.tag(f));
    if kind == i {
        return false;
    }
    if kind == j {
        return false;
    }
    if kind == k {
        return false;
    }
    true
}

// Whether no field of a record is of one of three kinds: one walk for all three, told one way.
fn lacks(r: &Record, i: usize, j: usize, k: usize) -> bool
    ensures { LacksTold r.now.file.now r.now.at i result × LacksTold r.now.file.now r.now.at j result × LacksTold r.now.file.now r.now.at k result }
{
    (0..r.head.count).all(|f| skips(r, f, i, j, k))
}

// Whether an attribute is anything but a removal.
fn is_kept(e: &[u8]) -> bool
    ensures { result ≡ is_kept e.now }
{
    if e.len() != 4 {
        return true;
    }
    if e[2] == 127 {
        return false;
    }
    true
}

// Whether a list of attributes has no removal.
pub fn all_kept(r: &Record, k: usize) -> bool
    requires { Listed r.now.file.now r.now.at r.now.head k }
    ensures { result ≡ all_of is_kept (entries_at r.now.file.now r.now.at k) }
{
    let mut c = begin();
    while let Some((from, to, after)) = next(r, k, c) {
        if !is_kept(&r.file[from..to]) {
            return false;
        }
        c = after;
    }
    true
}

// Whether four lists are empty.
fn all_empty(r: &Record, i: usize, j: usize, k: usize, l: usize) -> bool
    requires { LaidOut r.now.file.now r.now.at }
    ensures { result ≡ (is_empty r.now.file.now r.now.at i && (is_empty r.now.file.now r.now.at j && (is_empty r.now.file.now r.now.at k
        && is_empty r.now.file.now r.now.at l))) }
{
    if total(r, i) != 0 {
        return false;
    }
    if total(r, j) != 0 {
        return false;
    }
    if total(r, k) != 0 {
        return false;
    }
    total(r, l) == 0
}

// Whether a record that inserts brings no control and no removal. Most vectors bring no attribute either,
// which one walk over their fields tells.
pub fn insert_allowed(r: &Record) -> bool
    requires { LaidOut r.now.file.now r.now.at × Identified r.now.file.now r.now.at }
    ensures { result ≡ insert_allowed (kinds_of (rcnm_at r.now.file.now r.now.at)) (edit_of (amendment_at r.now.file.now r.now.at)) }
{
    if rcnm_of(r) == 100 {
        if !no_control(r, kinds::FFPC, kinds::FSPC) {
            return false;
        }
        if !all_kept(r, kinds::ATTF) {
            return false;
        }
        return all_kept(r, kinds::NATF);
    }
    if lacks(r, kinds::VRPC, kinds::SGCC, kinds::ATTV) {
        return true;
    }
    if !no_control(r, kinds::VRPC, kinds::SGCC) {
        return false;
    }
    all_kept(r, kinds::ATTV)
}

// Whether a record that deletes brings neither control nor list.
pub fn delete_allowed(r: &Record) -> bool
    requires { LaidOut r.now.file.now r.now.at × Identified r.now.file.now r.now.at }
    ensures { result ≡ delete_allowed (kinds_of (rcnm_at r.now.file.now r.now.at)) (edit_of (amendment_at r.now.file.now r.now.at)) }
{
    if rcnm_of(r) == 100 {
        if !no_control(r, kinds::FFPC, kinds::FSPC) {
            return false;
        }
        return all_empty(r, kinds::ATTF, kinds::NATF, kinds::FFPT, kinds::FSPT);
    }
    if !no_control(r, kinds::VRPC, kinds::SGCC) {
        return false;
    }
    all_empty(r, kinds::ATTV, kinds::VRPT, kinds::SG2D, kinds::SG3D)
}
