// Lists the vectors and features of a cell on standard input, of at most 65,536 bytes: a line for each
// with its place in the held form, RCNM, RCID, RVER and the sizes of its lists of attributes, pointers
// and coordinates, parted by tabs. A cell that is refused answers only `refused` and the code, file
// and record. It takes the verdict from `judging`, the held order from `names` and the lines from
// `listingrows`. The text is proved, byte by byte, and written out at once.
#![tactic(auto)]

ghost use Rattle.std.specs.Prelude.{◌≤◌, ◌<◌, ◌≡◌, length};
ghost use Rattle.octets.specs.Area.{Wrote};
ghost use Rattle.listingrows.specs.Listing.{JudgedCell, listing_with, listing_of};

use answers::Answer;
use answers::codes::LONG;
use iso8211::file::frame;
use judging::judge::judge;
use lines::put_cell;
use listingrows::text::put_refused;

mod lines;

// The descriptors of standard input and standard output.
const STDIN: i32 = 0;

const STDOUT: i32 = 1;

// The text for a cell whose verdict is a.
fn put_answer(file: &[u8], a: Answer, work: &mut [u8], out: &mut [u8]) -> usize
    requires { JudgedCell file.now a × (a.index < 4294967296) × (length file.now ≤ 65536) × (16384 ≤ length work.old) × (163904 ≤ length out.old) }
    ensures { Wrote out.old 0 (listing_with a file.now) out.new result }
{
    let code = a.code;
    if code != 0 {
        return put_refused(out, code, a.file, a.index as u32);
    }
    let Ok(n) = frame(file) else {
        return 0;
    };
    put_cell(file, n, work, out)
}

// The listing of a file, at the front of `out`; the answer is its length.
fn list(file: &[u8], work: &mut [u8], out: &mut [u8]) -> usize
    requires { (length work.old ≡ 32768) × (163904 ≤ length out.old) }
    ensures { Wrote out.old 0 (listing_of file.now) out.new result }
{
    if 65536 < file.len() {
        return put_refused(out, LONG, 1, 0);
    }
    let a = judge(file, work);
    put_answer(file, a, work, out)
}

// One byte more than a cell may have is read, to tell a longer one.
fn main() {
    let mut area = [0u8; 65537];
    let mut work = [0u8; 32768];
    let mut out = [0u8; 163904];
    let n = io::read_full(STDIN, &mut area);
    let end = list(&area[..n], &mut work, &mut out);
    io::write_all(STDOUT, &out[..end]);
}
