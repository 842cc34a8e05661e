// The fields of a record, by its leader and its directory.
ghost use Rattle.std.specs.Prelude.{◌+◌, ◌*◌, ◌≤◌, ◌<◌, ◌≡◌, length};
ghost use Rattle.iso8211.specs.Directory.{row_width};
ghost use Rattle.iso8211.specs.Record.{end_of};
ghost use Rattle.iso8211.specs.Field.{count_at, field_at, Headed, FieldsIn};
ghost use Rattle.iso8211.specs.Premises.{FramedAt, HeadOf, Rowed, Due};

use crate::directory::{row_at, tag_at};
use crate::record::digit_at;
use octets::digits::sure_digits;
use octets::widths::sure_at;

// The numbers of a leader that reading a field takes.
#[derive(Clone, Copy)]
pub struct Head {
    pub base: usize,
    pub lengths: usize,
    pub positions: usize,
    pub count: usize,
}

// A field: its tag's four bytes as a number, where it starts in the file, its length with its 1E.
#[derive(Clone, Copy)]
pub struct Field {
    pub tag: u32,
    pub start: usize,
    pub length: usize,
}

// Where the record at `at` ends.
pub fn record_end(s: &[u8], at: usize) -> usize
    requires { FramedAt s.now at }
    ensures { (result ≡ end_of s.now at) × ((at < result) × (result ≤ length s.now)) }
{
    at + sure_digits(s, at, 5) as usize
}

// The head of the record at `at`. It divides numbers of 32 bits, so that no test is made of whether they are small.
pub fn head_of(s: &[u8], at: usize) -> Head
    requires { Headed s.now at }
    ensures { HeadOf s.now at result }
{
    let base = sure_digits(s, at + 12, 5);
    let lengths = digit_at(s, at + 20);
    let positions = digit_at(s, at + 21);
    let count = (base - 25) / (4 + lengths + positions) as u32;
    Head {
        base: base as usize,
        lengths,
        positions,
        count: count as usize,
    }
}

// Where row k of the directory stands, its rows having l digits of length and p of position.
fn row_place(s: &[u8], at: usize, l: usize, p: usize, k: usize) -> usize
    requires { Rowed s.now at l p k }
    ensures { (result ≡ at + 24 + k * row_width l p) × (result + row_width l p ≤ length s.now) }
{
    at + 24 + k * (4 + l + p)
}

// A record of a file whose leader and directory are good, with its head.
#[derive(Clone, Copy)]
pub struct Record<'a> {
    pub file: &'a [u8],
    pub at: usize,
    pub head: Head,
    pub ghost headed: { HeadOf file.now at head },
}

impl<'a> Record<'a> {
    // Field k.
    pub fn field(&self, k: usize) -> Field
        requires { k < count_at self.now.file.now self.now.at }
        ensures { result ≡ field_at self.now.file.now self.now.at k }
    {
        let l = self.head.lengths;
        let p = self.head.positions;
        let base = self.head.base;
        let i = row_place(self.file, self.at, l, p, k);
        let row = row_at(self.file, l, p, i);
        Field {
            tag: row[0],
            start: self.at + base + row[2] as usize,
            length: row[1] as usize,
        }
    }

    // Its tag alone, for a walk that takes the rest of a field only where the tag is the one it looks
    // for.
    pub fn tag(&self, k: usize) -> u32
        requires { k < count_at self.now.file.now self.now.at }
        ensures { result ≡ (field_at self.now.file.now self.now.at k).tag }
    {
        let l = self.head.lengths;
        let p = self.head.positions;
        let i = row_place(self.file, self.at, l, p, k);
        tag_at(self.file, i)
    }

    // The same where it is known already where the field starts, as in a walk over all fields: its
    // position needs no reading. Its length is known to be a number, since the field lies in the file.
    pub fn field_on(&self, k: usize, start: usize) -> Field
        requires { (k < count_at self.now.file.now self.now.at) × (Due self.now.file.now self.now.at k start × FieldsIn self.now.file.now self.now.at) }
        ensures { result ≡ field_at self.now.file.now self.now.at k }
    {
        let l = self.head.lengths;
        let p = self.head.positions;
        let i = row_place(self.file, self.at, l, p, k);
        let length = sure_at(self.file, i + 4, l) as usize;
        let tag = tag_at(self.file, i);
        Field { tag, start, length }
    }
}
