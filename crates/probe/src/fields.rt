// A sum over the records and fields of a framed file, which changes with each number and with their
// order.
ghost use Rattle.std.specs.Prelude.{◌+◌, ◌*◌, ◌<◌, ◌≡◌, Ok};
ghost use Rattle.iso8211.specs.File.{frame_of};
ghost use Rattle.iso8211.specs.Premises.{RecordIn};

use iso8211::Field;
use iso8211::field::{Record, head_of, record_end};

// One number more.
fn mix(sum: u64, number: u64) -> u64
    requires { (sum < 4294967296) × (number < 9223372036854775808) }
    ensures { result < 4294967296 }
{
    (sum * 31 + number) % 4294967291
}

// The three numbers of a field more.
fn mix_field(sum: u64, field: Field) -> u64
    requires { (sum < 4294967296) × (field.start + field.length < 9223372036854775808) }
    ensures { result < 4294967296 }
{
    let tagged = mix(sum, field.tag as u64);
    let placed = mix(tagged, field.start as u64);
    mix(placed, field.length as u64)
}

// The fields of the record at `at` more.
fn mix_fields(file: &[u8], at: usize, sum: u64) -> u64
    requires { (RecordIn file.now at) × (sum < 4294967296) }
    ensures { result < 4294967296 }
{
    let head = head_of(file, at);
    let record = Record { file, at, head };
    let mut so = sum;
    for k in 0..head.count {
        let field = record.field(k);
        so = mix_field(so, field);
    }
    so
}

// The sum over the n records of a framed file.
pub fn sum_records(file: &[u8], n: usize) -> u64
    requires { frame_of file.now ≡ Ok n }
{
    let mut sum: u64 = 1;
    let mut at: usize = 0;
    for k in 0..n {
        let end = record_end(file, at);
        sum = mix(sum, end as u64);
        sum = mix_fields(file, at, sum);
        at = end;
    }
    sum
}
