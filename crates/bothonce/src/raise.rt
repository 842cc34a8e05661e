// Words copied to a higher place of their area.
ghost use Rattle.std.specs.Prelude.{◌+◌, ◌*◌, ◌≤◌, length};
ghost use Rattle.bothonce.specs.Both.{Raised};

use words::{get, put};

// The first n words, once more right behind them.
pub fn raise(work: &mut [u8], n: usize)
    requires { 8 * (n + n) ≤ length work.old }
    ensures { Raised work.old n work.new }
{
    // Word by word, since `copy_from_slice` would want the C library's memmove.
    for i in 0..n {
        let w = get(work, i);
        put(work, n + i, w);
    }
}
