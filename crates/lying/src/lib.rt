// Where the fields of each kind lie in a record: one walk over its fields finds all of them. It promises
// to the crates above: `Lists`, of which `of` finds the places of all kinds, `put` copies the bytes of a list and
// `total` says how many they are, by its place. It takes fields from `iso8211` and records that are laid out from
// `items`. A list in several fields is left to `joining`.
#![tactic(auto)]

ghost use Rattle.std.specs.Prelude.{◌+◌, ◌-◌, ◌≤◌, ◌<◌, ◌≡◌, length};
ghost use Rattle.octets.specs.Area.{Wrote};
ghost use Rattle.table.specs.Table.{kind_count};
ghost use Rattle.items.specs.Lists.{list_at};
ghost use Rattle.items.specs.Premises.{LaidOut};
ghost use Rattle.lying.specs.Lying.{Nowhere, Set, Kept, Lain, Lies};

use iso8211::field::{Field, Record, head_of};
use joining::lists::{put_list, total};
use octets::area::copy;
use table::{kind_of, kinds};

pub mod lists;

pub use lists::{Lists, PLACES};

// The content of a field: from `from` up to `to` of the file. Where `to` is before `from`, its place is
// not known.
#[derive(Drop)]
pub struct Place {
    pub from: usize,
    pub to: usize,
}

// The place of kind k becomes this.
fn set_place(l: &mut [usize; PLACES], k: usize, from: usize, to: usize)
    requires { (k < kind_count) × (length l.old ≡ 40) }
    ensures { Set l.old k from to l.new }
{
    l[k] = from;
    l[k + kinds::COUNT] = to;
}

// Field f, of kind k, is kept: its place, or, where a field of its kind came before it, none.
fn keep(s: &[u8], l: &mut [usize; PLACES], k: usize, f: Field)
    requires { (k < kind_count) × (length l.old ≡ 40) × (1 ≤ f.length) × (f.start + f.length ≤ length s.now) }
    ensures { Kept l.old k f l.new }
{
    if l[k] != l[k + kinds::COUNT] {
        set_place(l, k, 1, 0);
        return;
    }
    let from = f.start;
    set_place(l, k, from, from + (f.length - 1));
}

// Where the field behind f starts.
fn field_end(s: &[u8], f: Field) -> usize
    requires { f.start + f.length ≤ length s.now }
    ensures { result ≡ f.start + f.length }
{
    f.start + f.length
}

// Where the fields behind the directory start.
fn fields_start(r: &Record) -> usize
    ensures { result ≡ r.now.at + r.now.head.base }
{
    r.at + r.head.base
}

// The places of all fields of the record at `at`, into numbers that are 0.
fn lie(r: &Record, l: &mut [usize; PLACES])
    requires { LaidOut r.now.file.now r.now.at × Nowhere l.old }
    ensures { Lain r.now.file.now r.now.at l.new }
{
    let count = r.head.count;
    let mut due = fields_start(r);
    for j in 0..count {
        let f = r.field_on(j, due);
        let k = kind_of(f.tag);
        keep(r.file, l, k, f);
        due = field_end(r.file, f);
    }
}

impl<'a> Lists<'a> {
    // Those of the record at `at`.
    pub fn of(file: &'a [u8], at: usize) -> Lists<'a>
        requires { LaidOut file.now at }
        ensures { (result.record.file.now ≡ file.now) × (result.record.at ≡ at) }
    {
        let record = Record {
            file,
            at,
            head: head_of(file, at),
        };
        let mut places = [0usize; PLACES];
        lie(&record, &mut places);
        Lists { record, places }
    }

    // The place of the list of kind k.
    fn place(&self, k: usize) -> Place
        ensures { Lies self.now.record.file.now self.now.record.at k result }
    {
        if kinds::COUNT <= k {
            return Place { from: 1, to: 0 };
        }
        Place {
            from: self.places[k],
            to: self.places[k + kinds::COUNT],
        }
    }

    // How many bytes the list of kind k has.
    pub fn total(&self, k: usize) -> u32
        requires { LaidOut self.now.record.file.now self.now.record.at }
        ensures { (result ≡ length (list_at self.now.record.file.now self.now.record.at k)) × (result ≤ 300000) }
    {
        let p = self.place(k);
        let from = p.from;
        let to = p.to;
        if to < from {
            return total(&self.record, k);
        }
        between(from, to)
    }

    // The bytes of the list of kind k, copied.
    pub fn put(&self, k: usize, out: &mut [u8], place: usize) -> usize
        requires { LaidOut self.now.record.file.now self.now.record.at × (place + length (list_at self.now.record.file.now self.now.record.at k) ≤ length out.old) }
        ensures { Wrote out.old place (list_at self.now.record.file.now self.now.record.at k) out.new result }
    {
        let p = self.place(k);
        let from = p.from;
        let to = p.to;
        if to < from {
            return put_list(&self.record, k, out, place);
        }
        copy(&self.record.file[from..to], out, place)
    }
}

// How many bytes lie between two places.
fn between(from: usize, to: usize) -> u32
    requires { (from ≤ to) × (to - from ≤ 300000) }
    ensures { (result ≡ to - from) × (result ≤ 300000) }
{
    (to - from) as u32
}
