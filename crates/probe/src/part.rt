// Show, as a host test calls it. A part of a file can't be handed to C, so it is copied.
use octets::area::copy;
use show::show;

// The length of the part is returned, and an output that has room gets the part in front; any other
// stays. An answer area of exactly 16 bytes gets code, file, record and number.
#[unsafe(no_mangle)]
pub extern "C" fn probe_show<'a>(
    cell: &'a [u8],
    update: &'a [u8],
    work: &mut [u8],
    answer: &mut [u8],
    out: &mut [u8],
    rcnm: u32,
    rcid: u32,
) -> usize {
    let part = show(cell, update, work, answer, rcnm, rcid);
    if part.len() <= out.len() {
        copy(part, out, 0);
    }
    part.len()
}
