// The answer of 16 bytes.
ghost use Rattle.std.specs.Prelude.{◌+◌, ◌≤◌, ◌≡◌, length};
ghost use Rattle.octets.specs.Number.{bytes_of};
ghost use Rattle.octets.specs.Area.{Wrote};
ghost use Rattle.answers.specs.Sixteen.{answer_area};

use crate::answer::Answer;
use octets::number::put4;

// The low four bytes of a number.
fn put_low(area: &mut [u8], at: usize, v: usize) -> usize
    requires { at + 4 ≤ length area.old }
    ensures { Wrote area.old at (bytes_of 4 v) area.new result }
{
    put4(area, at, (v % 4294967296) as u32)
}

// The answer into an area of 16 bytes; any other stays as it is.
pub fn put_answer(a: Answer, area: &mut [u8])
    ensures { area.new ≡ answer_area area.old a }
{
    if area.len() != 16 {
        return;
    }
    let file = put4(area, 0, a.code);
    let index = put4(area, file, a.file);
    let number = put_low(area, index, a.index);
    put_low(area, number, a.number);
}
