// Numbers as text, parted by tabs, in lines: each function puts its text into the area from `at` on
// and answers where it ends.
ghost use Rattle.std.specs.Prelude.{◌+◌, ◌≤◌, ◌≡◌, ◌∷◌, length};
ghost use Rattle.octets.specs.Area.{Wrote};
ghost use Rattle.listingrows.specs.Text.{number_text, tabbed, line_of, refused_text, header_text};

use octets::area::copy;
use octets::digits::{fewest_digits, put_digits};
use octets::number::put1;

// A number in as few digits as it takes.
fn put_number(area: &mut [u8], at: usize, v: u32) -> usize
    requires { at + length (number_text v) ≤ length area.old }
    ensures { Wrote area.old at (number_text v) area.new result }
{
    let w = fewest_digits(v);
    put_digits(area, at, w, v)
}

// A tab, and a number.
fn put_next(area: &mut [u8], at: usize, v: u32) -> usize
    requires { at + length (9 ∷ number_text v) ≤ length area.old }
    ensures { Wrote area.old at (9 ∷ number_text v) area.new result }
{
    let next = put1(area, at, b'\t');
    put_number(area, next, v)
}

// The rest of a line: each number behind a tab, and the line feed.
fn put_tabbed(area: &mut [u8], at: usize, numbers: &[u32]) -> usize
    requires { at + length (tabbed numbers.now) ≤ length area.old }
    ensures { Wrote area.old at (tabbed numbers.now) area.new result }
{
    let mut next = at;
    for v in numbers {
        next = put_next(area, next, *v);
    }
    put1(area, next, b'\n')
}

// A line of numbers, `first` the first of them.
pub fn put_line(area: &mut [u8], at: usize, first: u32, numbers: &[u32]) -> usize
    requires { at + length (line_of first numbers.now) ≤ length area.old }
    ensures { Wrote area.old at (line_of first numbers.now) area.new result }
{
    let next = put_number(area, at, first);
    put_tabbed(area, next, numbers)
}

// The one line of a refusal, at the front of the area.
pub fn put_refused(area: &mut [u8], code: u32, file: u32, index: u32) -> usize
    requires { 71 ≤ length area.old }
    ensures { Wrote area.old 0 (refused_text code file index) area.new result }
{
    let next = copy(b"refused", area, 0);
    let numbers = [code, file, index];
    put_tabbed(area, next, &numbers)
}

// The line that names the columns, at the front of the area.
pub fn put_header(area: &mut [u8]) -> usize
    requires { 54 ≤ length area.old }
    ensures { Wrote area.old 0 header_text area.new result × (result ≡ 54) }
{
    copy(
        b"index\tname\tid\tversion\tattributes\tpointers\tcoordinates\n",
        area,
        0,
    )
}
