// Document 01's table of fields, once: tags, formats, labels, shapes of entries and places. It
// promises what a tag means and what a field of each kind is made of.
#![tactic(auto)]

ghost use Rattle.std.specs.Prelude.{◌≡◌, ◌<◌, length};
ghost use Rattle.table.specs.Table.{kind_of, kind_row, first, kind_count};
ghost use Rattle.table.specs.Premises.{Picked};

pub mod offsets;

// The fields by their number in document 01's table.
pub mod kinds {
    pub const DSID: usize = 0;

    pub const DSSI: usize = 1;

    pub const DSPM: usize = 2;

    pub const VRID: usize = 3;

    pub const ATTV: usize = 4;

    pub const VRPC: usize = 5;

    pub const VRPT: usize = 6;

    pub const SGCC: usize = 7;

    pub const SG2D: usize = 8;

    pub const SG3D: usize = 9;

    pub const FRID: usize = 10;

    pub const FOID: usize = 11;

    pub const ATTF: usize = 12;

    pub const NATF: usize = 13;

    pub const FFPC: usize = 14;

    pub const FFPT: usize = 15;

    pub const FSPC: usize = 16;

    pub const FSPT: usize = 17;

    // Behind the table: 0001, which stands first in every record but record 0; and every other tag, 0000
    // among them.
    pub const FIRST: usize = 18;

    pub const UNKNOWN: usize = 19;

    // How many kinds that makes.
    pub const COUNT: usize = 20;
}

// The tags of the fields: four bytes as a number, the first the highest.
pub mod tags {
    pub const DSID: u32 = 0x44534944;

    pub const DSSI: u32 = 0x44535349;

    pub const DSPM: u32 = 0x4453504D;

    pub const VRID: u32 = 0x56524944;

    pub const ATTV: u32 = 0x41545456;

    pub const VRPC: u32 = 0x56525043;

    pub const VRPT: u32 = 0x56525054;

    pub const SGCC: u32 = 0x53474343;

    pub const SG2D: u32 = 0x53473244;

    pub const SG3D: u32 = 0x53473344;

    pub const FRID: u32 = 0x46524944;

    pub const FOID: u32 = 0x464F4944;

    pub const ATTF: u32 = 0x41545446;

    pub const NATF: u32 = 0x4E415446;

    pub const FFPC: u32 = 0x46465043;

    pub const FFPT: u32 = 0x46465054;

    pub const FSPC: u32 = 0x46535043;

    pub const FSPT: u32 = 0x46535054;

    // 0000, which opens record 0, and 0001, which opens every other record.
    pub const ZERO: u32 = 0x30303030;

    pub const FIRST: u32 = 0x30303031;
}

// The fixed bytes of a group of each field: all of it where it has no text, else those before its text.
pub mod sizes {
    pub const DSID: usize = 7;

    pub const DSSI: usize = 35;

    pub const DSPM: usize = 24;

    pub const VRID: usize = 8;

    pub const ATTV: usize = 2;

    pub const VRPT: usize = 9;

    pub const SG2D: usize = 8;

    pub const SG3D: usize = 12;

    pub const FRID: usize = 12;

    pub const FOID: usize = 8;

    pub const ATTF: usize = 2;

    pub const NATF: usize = 2;

    pub const FFPT: usize = 9;

    pub const FSPT: usize = 8;

    // A control: instruction, index and count.
    pub const CONTROL: usize = 5;

    // 0001.
    pub const FIRST: usize = 2;
}

// What the table says of the layout of a field: the fixed bytes of a group and the width of the text
// behind them (0: none), whether the group repeats, whether it is a control, the kind of record and
// the place in it.
#[derive(Drop)]
pub struct Kind {
    pub fixed: usize,
    pub unit: usize,
    pub list: bool,
    pub control: bool,
    pub group: usize,
    pub order: usize,
}

// The field of a tag by its number in the table; also 0001, and a tag that is none of these.
pub fn kind_of(tag: u32) -> usize
    ensures { (result ≡ kind_of tag) × (result < kind_count) }
{
    match tag {
        tags::DSID => kinds::DSID,
        tags::DSSI => kinds::DSSI,
        tags::DSPM => kinds::DSPM,
        tags::VRID => kinds::VRID,
        tags::ATTV => kinds::ATTV,
        tags::VRPC => kinds::VRPC,
        tags::VRPT => kinds::VRPT,
        tags::SGCC => kinds::SGCC,
        tags::SG2D => kinds::SG2D,
        tags::SG3D => kinds::SG3D,
        tags::FRID => kinds::FRID,
        tags::FOID => kinds::FOID,
        tags::ATTF => kinds::ATTF,
        tags::NATF => kinds::NATF,
        tags::FFPC => kinds::FFPC,
        tags::FFPT => kinds::FFPT,
        tags::FSPC => kinds::FSPC,
        tags::FSPT => kinds::FSPT,
        tags::FIRST => kinds::FIRST,
        _ => kinds::UNKNOWN,
    }
}

// What the table says of the layout of each field, in its order: the fixed bytes of a group, and beside them a
// text that ends it, a list, a control; the kind of record and the place in it, each so many times.
const TEXT: u16 = 64;

const LIST: u16 = 128;

const CONTROL: u16 = 256;

const RECORD: u16 = 512;

const PLACE: u16 = 2048;

const ROWS: [u16; kinds::FIRST] = [
    sizes::DSID as u16 + TEXT + 0 * RECORD + 1 * PLACE,
    sizes::DSSI as u16 + 0 * RECORD + 2 * PLACE,
    sizes::DSPM as u16 + TEXT + 1 * RECORD + 1 * PLACE,
    sizes::VRID as u16 + 2 * RECORD + 1 * PLACE,
    sizes::ATTV as u16 + TEXT + LIST + 2 * RECORD + 2 * PLACE,
    sizes::CONTROL as u16 + CONTROL + 2 * RECORD + 3 * PLACE,
    sizes::VRPT as u16 + LIST + 2 * RECORD + 4 * PLACE,
    sizes::CONTROL as u16 + CONTROL + 2 * RECORD + 5 * PLACE,
    sizes::SG2D as u16 + LIST + 2 * RECORD + 6 * PLACE,
    sizes::SG3D as u16 + LIST + 2 * RECORD + 6 * PLACE,
    sizes::FRID as u16 + 3 * RECORD + 1 * PLACE,
    sizes::FOID as u16 + 3 * RECORD + 2 * PLACE,
    sizes::ATTF as u16 + TEXT + LIST + 3 * RECORD + 3 * PLACE,
    sizes::NATF as u16 + TEXT + LIST + 3 * RECORD + 4 * PLACE,
    sizes::CONTROL as u16 + CONTROL + 3 * RECORD + 5 * PLACE,
    sizes::FFPT as u16 + TEXT + LIST + 3 * RECORD + 6 * PLACE,
    sizes::CONTROL as u16 + CONTROL + 3 * RECORD + 7 * PLACE,
    sizes::FSPT as u16 + LIST + 3 * RECORD + 8 * PLACE,
];

// The row of kind k among these.
fn picked(rows: [u16; kinds::FIRST], k: usize) -> u16
    requires { (length rows ≡ first) × (k < first) }
    ensures { Picked rows k result }
{
    rows[k]
}

// What the table says of the layout of kind k; past the table, 0001.
pub fn kind_row(k: usize) -> Kind
    ensures { result ≡ kind_row k }
{
    if kinds::FIRST <= k {
        return Kind {
            fixed: sizes::FIRST,
            unit: 0,
            list: false,
            control: false,
            group: 9,
            order: 0,
        };
    }
    let row = picked(ROWS, k);
    Kind {
        fixed: (row % TEXT) as usize,
        unit: (row / TEXT % 2) as usize,
        list: row / LIST % 2 == 1,
        control: row / CONTROL % 2 == 1,
        group: (row / RECORD % 4) as usize,
        order: (row / PLACE % 16) as usize,
    }
}
