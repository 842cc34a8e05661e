// Reading whole, as a host test calls it: the code is returned, and an answer area of 20 bytes gets
// code, file, record, number and offset, each in four bytes, low byte first.
use answers::Answer;
use octets::number::put4;
use readboth::read::{read_both, read_cell};

// A number in four bytes; those of an answer about files of at most 5,242,880 bytes fit.
fn low(v: usize) -> u32 {
    (v % 4294967296) as u32
}

// An area of another length stays untouched.
fn put_answer(a: Answer, out: &mut [u8]) {
    if out.len() == 20 {
        put4(out, 0, a.code);
        put4(out, 4, a.file);
        put4(out, 8, low(a.index));
        put4(out, 12, low(a.number));
        put4(out, 16, low(a.offset));
    }
}

#[unsafe(no_mangle)]
pub extern "C" fn probe_read_cell(cell: &[u8], work: &mut [u8], answer: &mut [u8]) -> u32 {
    let a = read_cell(cell, work);
    put_answer(a, answer);
    a.code
}

#[unsafe(no_mangle)]
pub extern "C" fn probe_read_both(
    cell: &[u8],
    update: &[u8],
    work: &mut [u8],
    answer: &mut [u8],
) -> u32 {
    let a = read_both(cell, update, work);
    put_answer(a, answer);
    a.code
}
