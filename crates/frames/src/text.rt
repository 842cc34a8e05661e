// Text that waits in an area of fixed size, and is written to standard output when the area is full.
// Each function puts its text behind the `used` bytes that wait there, and answers how many wait
// then.
ghost use Rattle.std.specs.Prelude.{◌≤◌};

use crate::STDOUT;

// Writes out what waits.
pub fn flush(out: &[u8; 4096], used: usize)
    requires { used ≤ 4096 }
{
    let all: &[u8] = out;
    io::write_all(STDOUT, &all[..used]);
}

pub fn put_byte(out: &mut [u8; 4096], used: usize, b: u8) -> usize
    ensures { result ≤ 4096 }
{
    if used < 4096 {
        out[used] = b;
        return used + 1;
    }
    io::write_all(STDOUT, out);
    out[0] = b;
    1
}

fn put_bytes(out: &mut [u8; 4096], used: usize, bytes: &[u8]) -> usize
    requires { used ≤ 4096 }
    ensures { result ≤ 4096 }
{
    let mut next = used;
    for b in bytes {
        next = put_byte(out, next, *b);
    }
    next
}

// A number in as few decimal digits as it takes.
fn put_number(out: &mut [u8; 4096], used: usize, number: usize) -> usize
    requires { used ≤ 4096 }
    ensures { result ≤ 4096 }
{
    let mut digits = [0u8; 20];
    let count = io::decimal(number as u64, &mut digits);
    put_bytes(out, used, &digits[..count])
}

// A tag as its four bytes.
fn put_tag(out: &mut [u8; 4096], used: usize, tag: u32) -> usize
    ensures { result ≤ 4096 }
{
    let one = put_byte(out, used, (tag / 16777216) as u8);
    let two = put_byte(out, one, (tag / 65536 % 256) as u8);
    let three = put_byte(out, two, (tag / 256 % 256) as u8);
    put_byte(out, three, (tag % 256) as u8)
}

// A tab, and a number.
fn put_next(out: &mut [u8; 4096], used: usize, number: usize) -> usize
    ensures { result ≤ 4096 }
{
    let next = put_byte(out, used, b'\t');
    put_number(out, next, number)
}

// How a record's line starts: its index, offset and length.
pub fn put_start(out: &mut [u8; 4096], used: usize, k: usize, at: usize, length: usize) -> usize
    requires { used ≤ 4096 }
    ensures { result ≤ 4096 }
{
    let indexed = put_number(out, used, k);
    let placed = put_next(out, indexed, at);
    put_next(out, placed, length)
}

// A field's part of its record's line.
pub fn put_field(out: &mut [u8; 4096], used: usize, tag: u32, length: usize) -> usize
    ensures { result ≤ 4096 }
{
    let next = put_byte(out, used, b'\t');
    let tagged = put_tag(out, next, tag);
    put_next(out, tagged, length)
}
