// The record of an item whose lists may stand in several fields, which are joined: any record of a
// cell. Few have such lists, so these functions are seldom called.
ghost use Rattle.std.specs.Prelude.{◌+◌, ◌-◌, ◌≤◌, length};
ghost use Rattle.octets.specs.Area.{Wrote};
ghost use Rattle.iso8211.specs.Premises.{HeadOf};
ghost use Rattle.records.specs.Written.{record_bytes, size_of};
ghost use Rattle.items.specs.Item.{item_at};
ghost use Rattle.itemfields.specs.Fields.{item_pieces};
ghost use Rattle.itemrows.specs.Plain.{Writable, ItemSized};
ghost use Rattle.itemrows.specs.Joined.{joined_body, joined_pieces, Totals, Tagged, Lead, Sized};
ghost use Rattle.items.specs.Premises.{LaidOut};

use iso8211::field::{Head, Record};
use itemrows::lead::{feature_rows, put_lead, vector_rows};
use itemrows::rows::{count_of, list_rows, sum_of};
use items::identity::rcnm_of;
use joining::lists::{put_lists, totals};
use records::head::{base_of, put_head};
use table::{kinds, tags};

// All fields, one after the other.
fn put_fields(
    r: &Record,
    from: usize,
    n: usize,
    kinds: [usize; 4],
    totals: [u32; 4],
    out: &mut [u8],
    place: usize,
    number: u32,
) -> usize
    requires { LaidOut r.now.file.now r.now.at × Totals r.now.file.now r.now.at kinds totals × (from + n ≤ length r.now.file.now)
        × (place + length (joined_body number r.now.file.now r.now.at from n kinds) ≤ length out.old) }
    ensures { Wrote out.old place (joined_body number r.now.file.now r.now.at from n kinds) out.new result }
{
    let a = put_lead(r.file, from, n, out, place, number);
    put_lists(r, kinds, totals, out, a)
}

// How long the record is that `put_record` writes.
fn size_record(
    r: &Record,
    m: usize,
    fixed: u32,
    rows: [[u32; 3]; 8],
    kinds: [usize; 4],
    tags: [u32; 4],
) -> u32
    requires { LaidOut r.now.file.now r.now.at × Lead r.now.file.now r.now.at m fixed rows × Tagged kinds tags }
    ensures { Sized r.now.file.now r.now.at m kinds result }
{
    let t = totals(r, kinds);
    let all = list_rows(rows, 1 + m, fixed, tags, t);
    let n = 1 + m + count_of(t);
    let body = fixed + sum_of(t);
    base_of(all, n) + body
}

// The record of an item with m identifier fields, which have `fixed` bytes with 0001, and lists of
// these kinds and tags; the rows are those before the lists.
fn put_record(
    r: &Record,
    m: usize,
    fixed: u32,
    rows: [[u32; 3]; 8],
    kinds: [usize; 4],
    tags: [u32; 4],
    out: &mut [u8],
    place: usize,
    number: u32,
) -> usize
    requires { LaidOut r.now.file.now r.now.at × Lead r.now.file.now r.now.at m fixed rows × Tagged kinds tags
        × (place + size_of (joined_pieces number r.now.file.now r.now.at m kinds) ≤ length out.old) }
    ensures { Wrote out.old place (record_bytes (joined_pieces number r.now.file.now r.now.at m kinds)) out.new result }
{
    let t = totals(r, kinds);
    let all = list_rows(rows, 1 + m, fixed, tags, t);
    let n = 1 + m + count_of(t);
    let body = fixed + sum_of(t);
    let f = r.field(1);
    let from = f.start;
    let a = put_head(out, place, all, n, body);
    put_fields(r, from, fixed as usize - 3, kinds, t, out, a, number)
}

// How long the record of the item at `at` is, its lists joined. It takes file, place and head apart: that a
// file's bytes are below 256 is known to a proof where the file itself is lent.
pub fn size_joined(s: &[u8], at: usize, h: Head) -> u32
    requires { Writable s.now at × HeadOf s.now at h }
    ensures { ItemSized s.now at result }
{
    let r = Record {
        file: s,
        at,
        head: h,
    };
    if rcnm_of(&r) == 100 {
        let rows = feature_rows();
        let kinds = [kinds::ATTF, kinds::NATF, kinds::FFPT, kinds::FSPT];
        let tags = [tags::ATTF, tags::NATF, tags::FFPT, tags::FSPT];
        return size_record(&r, 2, 25, rows, kinds, tags);
    }
    let rows = vector_rows();
    let kinds = [kinds::ATTV, kinds::VRPT, kinds::SG2D, kinds::SG3D];
    let tags = [tags::ATTV, tags::VRPT, tags::SG2D, tags::SG3D];
    size_record(&r, 1, 12, rows, kinds, tags)
}

// The record of the item at `at`, its lists joined.
pub fn put_joined(s: &[u8], at: usize, h: Head, out: &mut [u8], place: usize, number: u32) -> usize
    requires { Writable s.now at × HeadOf s.now at h × (place + size_of (item_pieces number (item_at s.now at)) ≤ length out.old) }
    ensures { Wrote out.old place (record_bytes (item_pieces number (item_at s.now at))) out.new result }
{
    let r = Record {
        file: s,
        at,
        head: h,
    };
    if rcnm_of(&r) == 100 {
        let rows = feature_rows();
        let kinds = [kinds::ATTF, kinds::NATF, kinds::FFPT, kinds::FSPT];
        let tags = [tags::ATTF, tags::NATF, tags::FFPT, tags::FSPT];
        return put_record(&r, 2, 25, rows, kinds, tags, out, place, number);
    }
    let rows = vector_rows();
    let kinds = [kinds::ATTV, kinds::VRPT, kinds::SG2D, kinds::SG3D];
    let tags = [tags::ATTV, tags::VRPT, tags::SG2D, tags::SG3D];
    put_record(&r, 1, 12, rows, kinds, tags, out, place, number)
}
