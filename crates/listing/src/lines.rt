// The lines of a cell's vectors and features.
ghost use Rattle.std.specs.Prelude.{◌+◌, ◌*◌, ◌≤◌, ◌<◌, false, length};
ghost use Rattle.octets.specs.Area.{Wrote};
ghost use Rattle.words.specs.Words.{words_in};
ghost use Rattle.items.specs.Word.{word_offset};
ghost use Rattle.listingrows.specs.Text.{line_of};
ghost use Rattle.listingrows.specs.Listing.{lines_from, lines_of, Listable, row_of};
ghost use Rattle.items.specs.Item.{item_at};
ghost use Rattle.names.specs.NameWords.{items_at};
ghost use Rattle.names.specs.Premises.{Readable, Stands};

use items::word;
use listingrows::row::row_at;
use listingrows::text::{put_header, put_line};
use names::order::order;
use names::walk::first_item;
use words::get;

// The line of the item of word w.
fn put_item(s: &[u8], w: u64, place: u32, out: &mut [u8], at: usize) -> usize
    requires { Stands s.now w × (length s.now ≤ 65536) × (place < 10000000000) × (at + 80 ≤ length out.old) }
    ensures { Wrote out.old at (line_of place (row_of (item_at s.now (word_offset w)))) out.new result × (result ≤ at + 80) }
{
    let row = row_at(s, (w % word::NAME_WEIGHT) as usize);
    put_line(out, at, place, &row)
}

// The lines of the m items whose words stand at the front of the work area, in this order; the place
// of the first is 3.
fn put_lines(s: &[u8], m: usize, work: &[u8], out: &mut [u8], at: usize) -> usize
    requires { Listable s.now m work.now × (at + 80 * m ≤ length out.old) }
    ensures { Wrote out.old at (lines_from 3 (items_at s.now (words_in work.now 0 m))) out.new result }
{
    let mut next = at;
    for k in 0..m {
        let w = get(work, k);
        next = put_item(s, w, (k + 3) as u32, out, next);
    }
    next
}

// The header, and the lines of a cell of n records in held order.
pub fn put_cell(s: &[u8], n: usize, work: &mut [u8], out: &mut [u8]) -> usize
    requires { Readable false s.now n × (length s.now ≤ 65536) × (16384 ≤ length work.old) × (163904 ≤ length out.old) }
    ensures { Wrote out.old 0 (lines_of s.now n) out.new result }
{
    order(s, n, false, work);
    let next = put_header(out);
    put_lines(s, n - first_item(false), work, out, next)
}
