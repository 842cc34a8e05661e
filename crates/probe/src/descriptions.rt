// The parts of record 0's fields, as numbers and bytes.
ghost use Rattle.std.specs.Prelude.{◌≡◌, length};

use octets::number::put4;

// The 32 primitives, four bytes each.
pub fn put_items(items: [u32; 32], out: &mut [u8])
    requires { length out.old ≡ 128 }
{
    for (i, number) in items.iter().enumerate() {
        put4(out, 4 * i, *number);
    }
}
