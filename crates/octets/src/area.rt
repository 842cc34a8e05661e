// Areas of bytes: filled with zeros, and filled from another.
ghost use Rattle.std.specs.Prelude.{◌≡◌, ◌+◌, ◌≤◌, length, replicate};
ghost use Rattle.octets.specs.Area.{Wrote};

// Every byte of the area becomes 0.
pub fn clear(area: &mut [u8])
    ensures { area.new ≡ replicate (length area.old) 0 }
{
    area.fill(0);
}

// All of `src`, into the area from `at` on; the answer is where it ends.
pub fn copy(src: &[u8], area: &mut [u8], at: usize) -> usize
    requires { at + length src.now ≤ length area.old }
    ensures { Wrote area.old at src.now area.new result }
{
    // Byte by byte: `copy_from_slice` would want the C library's memmove, of which hosts are not asked.
    for i in 0..src.len() {
        area[at + i] = src[i];
    }
    at + src.len()
}
