// One row of a directory, and the framing of its field.
ghost use Rattle.std.specs.Prelude.{◌+◌, ◌≤◌, length};
ghost use Rattle.iso8211.specs.Directory.{row_width};
ghost use Rattle.recordfine.specs.Premises.{RowTold};

use octets::widths::digits_at;

// The length, with its 1E, of the field whose row is at i, of l digits of length and p of position, due
// at `due` in the `size` bytes of fields from `body` on; 0 where it isn't framed well.
pub fn row_fine(
    s: &[u8],
    i: usize,
    l: usize,
    p: usize,
    body: usize,
    size: usize,
    due: usize,
) -> usize
    requires { (l ≤ 9) × (p ≤ 9) × (i + row_width l p ≤ length s.now) × (body + size ≤ length s.now) × (due ≤ size) × (size ≤ 99999) }
    ensures { RowTold s.now i l p body size due result }
{
    let long = digits_at(s, i + 4, l) as usize;
    let position = digits_at(s, i + 4 + l, p) as usize;
    if position != due {
        return 0;
    }
    if long < 1 {
        return 0;
    }
    if size < due + long {
        return 0;
    }
    if s[body + (due + long) - 1] != 30 {
        return 0;
    }
    long
}
