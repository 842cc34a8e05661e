// The proved code for C programs to call: wrappers that only host tests and benchmarks link. Each
// takes any bytes of any length. It promises to nobody above; it takes the framing from `iso8211`, the
// cut of a descriptive field from `fieldparts`, format lists from `formats`, reading whole from
// `readboth` and Show from `show`.
#![tactic(auto)]

ghost use Rattle.std.specs.Prelude.{◌+◌, ◌*◌, ◌<◌, ◌≡◌};
ghost use Rattle.iso8211.specs.File.{frame_of};
ghost use Rattle.probe.specs.Verdict.{verdict_of};

use fieldparts::descriptive::cut;
use formats::write_out;
use iso8211::file::frame;

pub mod descriptions;
pub mod fields;
pub mod part;
pub mod read;

// How many records the file has, or which is the first bad one, as one number.
#[unsafe(no_mangle)]
pub extern "C" fn probe_frame(file: &[u8]) -> u64
    ensures { result ≡ verdict_of (frame_of file.now) }
{
    match frame(file) {
        Ok(n) => 2 * n as u64,
        Err(k) => 2 * k as u64 + 1,
    }
}

// A sum over all records and fields of a framed file, in order; 0 where it isn't framed.
#[unsafe(no_mangle)]
pub extern "C" fn probe_fields(file: &[u8]) -> u64 {
    let Ok(n) = frame(file) else {
        return 0;
    };
    fields::sum_records(file, n)
}

// How many primitives the format list that is all of `text` has, written out, or 0 where it is no
// such list. An `out` of exactly 128 bytes gets them, and zeros after the last; any other stays.
#[unsafe(no_mangle)]
pub extern "C" fn probe_formats(text: &[u8], out: &mut [u8]) -> u32 {
    let formats = write_out(text, 0);
    let items = formats.items;
    if formats.end == 0 {
        return 0;
    }
    if formats.end != text.len() {
        return 0;
    }
    let count = formats.count as u32;
    if out.len() != 128 {
        return count;
    }
    descriptions::put_items(items, out);
    count
}

// Where the two 1F of a descriptive field stand, the second in the upper 32 bits; 0 where there are
// no such two, or where the field is longer than a record can hold.
#[unsafe(no_mangle)]
pub extern "C" fn probe_cut(field: &[u8]) -> u64 {
    if 99999 < field.len() {
        return 0;
    }
    let parts = cut(field);
    parts.name as u64 + 4294967296 * parts.labels as u64
}
