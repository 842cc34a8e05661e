// A field by its place and its content together, for each form of field that ordinary records have: its
// kind k, or START in its place where it isn't fine.
ghost use Rattle.std.specs.Prelude.{◌≤◌, cond, ◌≡◌, length, eqb};
ghost use Rattle.fieldfine.specs.Told.{content_in};
ghost use Rattle.fieldfine.specs.Text.{Ended};
ghost use Rattle.fieldfine.specs.Place.{list_stands, SingleField, GroupsField, AttributesField, PointersField};

use crate::single::groups_fine;
use crate::text::{attributes_fine, pointers_fine};
use layout::place::START;

// Whether a list of kind k is declared and may stand behind a field of kind `prev`: behind the field of
// kind `low` with which its lists begin, or any between the two in the table.
fn list_stands(marks: &[u8], prev: usize, low: usize, k: usize) -> bool
    requires { (length marks.now ≡ 20) × (k ≤ 19) }
    ensures { result ≡ list_stands marks.now prev low k }
{
    if marks[k] != 1 {
        return false;
    }
    if prev < low {
        return false;
    }
    prev <= k
}

// A field of `fixed` bytes that stands behind one of kind `behind` only.
pub fn single_field(
    n: usize,
    fixed: usize,
    marks: &[u8],
    prev: usize,
    behind: usize,
    k: usize,
) -> usize
    requires { (length marks.now ≡ 20) × (k ≤ 19) }
    ensures { SingleField n fixed marks.now prev behind k result }
{
    if n != fixed {
        return START;
    }
    if prev != behind {
        return START;
    }
    if marks[k] != 1 {
        return START;
    }
    k
}

// A list of groups of `fixed` bytes.
pub fn groups_field(
    n: usize,
    fixed: usize,
    marks: &[u8],
    prev: usize,
    low: usize,
    k: usize,
) -> usize
    requires { (length marks.now ≡ 20) × (k ≤ 19) × (1 ≤ fixed) }
    ensures { GroupsField n fixed marks.now prev low k result }
{
    if !list_stands(marks, prev, low, k) {
        return START;
    }
    if !groups_fine(n, fixed) {
        return START;
    }
    k
}

// The stamp of a list: that of the list before where it goes on, a fresh one where it begins.
pub fn stamp_of(on: bool, stamp: u32, fresh: u32) -> u32
    ensures { result ≡ cond on stamp fresh }
{
    if on { stamp } else { fresh }
}

// A list of attributes.
pub fn attributes_field(
    d: &[u8],
    marks: &[u8],
    prev: usize,
    low: usize,
    k: usize,
    update: bool,
    high: bool,
    table: &mut [u32],
    stamp: u32,
    fresh: u32,
) -> usize
    requires { Ended d.now × (length marks.now ≡ 20) × (k ≤ 19) × (length table.old ≡ 65536) }
    ensures { AttributesField update high (content_in d.now) marks.now prev low k (cond (eqb prev k) stamp fresh)
        table.old table.new result }
{
    if !list_stands(marks, prev, low, k) {
        return START;
    }
    if !attributes_fine(d, update, high, table, stamp_of(prev == k, stamp, fresh)) {
        return START;
    }
    k
}

// A list of FFPT.
pub fn pointers_field(d: &[u8], marks: &[u8], prev: usize, low: usize, k: usize) -> usize
    requires { Ended d.now × (length marks.now ≡ 20) × (k ≤ 19) }
    ensures { PointersField (content_in d.now) marks.now prev low k result }
{
    if !list_stands(marks, prev, low, k) {
        return START;
    }
    if !pointers_fine(d) {
        return START;
    }
    k
}
