// Lists the records of an ISO 8211 file on standard input, of at most 65,536 bytes: a line for each
// record with its index, offset and length, then the tag and the length of each field, parted by
// tabs. A broken file answers only `broken` and the index of the first bad record, a longer one only
// `too long`. It takes records and fields from `iso8211`.
#![tactic(auto)]

ghost use Rattle.std.specs.Prelude.{◌≤◌, ◌≡◌, Ok};
ghost use Rattle.iso8211.specs.Premises.{FramedAt};
ghost use Rattle.iso8211.specs.File.{frame_of};

use iso8211::field::{Record, head_of, record_end};
use iso8211::file::frame;

mod text;

// The descriptors of standard input and standard output.
const STDIN: i32 = 0;

pub const STDOUT: i32 = 1;

// The line of record k, at `at`, behind what waits in `out`.
fn put_record(file: &[u8], at: usize, k: usize, out: &mut [u8; 4096], used: usize) -> usize
    requires { (FramedAt file.now at) × (used ≤ 4096) }
    ensures { result ≤ 4096 }
{
    let end = record_end(file, at);
    let head = head_of(file, at);
    let record = Record { file, at, head };
    let count = head.count;
    let mut next = text::put_start(out, used, k, at, end - at);
    for j in 0..count {
        let field = record.field(j);
        next = text::put_field(out, next, field.tag, field.length);
    }
    text::put_byte(out, next, b'\n')
}

// The lines of the n records of a framed file.
fn write_records(file: &[u8], n: usize)
    requires { frame_of file.now ≡ Ok n }
{
    let mut out = [0u8; 4096];
    let mut used: usize = 0;
    let mut at: usize = 0;
    for k in 0..n {
        used = put_record(file, at, k, &mut out, used);
        at = record_end(file, at);
    }
    text::flush(&out, used);
}

// The one line of a file whose record k is the first bad one.
fn write_broken(k: usize) {
    io::write_all(STDOUT, b"broken\t");
    io::print_decimal(STDOUT, k as u64);
    io::write_all(STDOUT, b"\n");
}

fn list(file: &[u8]) {
    if 65536 < file.len() {
        io::write_all(STDOUT, b"too long\n");
        return;
    }
    match frame(file) {
        Ok(n) => write_records(file, n),
        Err(k) => write_broken(k),
    }
}

// One byte more than a file may have is read, to tell a longer one.
fn main() {
    let mut area = [0u8; 65537];
    let n = io::read_full(STDIN, &mut area);
    list(&area[..n]);
}
