// Document 01's codes and limits, each once, under the names that crates/answers/specs/Codes.antt gives them.

pub const LONG: u32 = 1;

pub const FRAME: u32 = 2;

pub const WORK: u32 = 3;

pub const DESCRIBED: u32 = 4;

pub const LAYOUT: u32 = 5;

pub const VALUE: u32 = 6;

pub const TWICE: u32 = 7;

pub const COUNTS: u32 = 8;

pub const OTHER: u32 = 9;

pub const EDITION: u32 = 10;

pub const NUMBER: u32 = 11;

pub const LEVEL: u32 = 12;

pub const TARGET: u32 = 13;

pub const VERSION: u32 = 14;

pub const IDENTITY: u32 = 15;

pub const EDIT: u32 = 16;

pub const SHAPE: u32 = 17;

pub const POINTER: u32 = 18;

pub const RING: u32 = 19;

pub const SIZE: u32 = 20;

pub const ROOM: u32 = 21;

pub const ABSENT: u32 = 22;

// A file, and the held form: "5,242,880 bytes".
pub const MOST_BYTES: usize = 5242880;

// The held form: "65,536 records with record 0".
pub const MOST_RECORDS: usize = 65536;

// A record of the held form: "99,999 bytes a record".
pub const LONGEST_RECORD: u32 = 99999;

// The work area: "16 bytes a record of the files given".
pub const WORK_EACH: usize = 16;
