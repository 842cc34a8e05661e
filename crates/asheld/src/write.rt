// A record whose bytes are those of the held form, copied.
ghost use Rattle.std.specs.Prelude.{◌+◌, ◌≤◌, ◌≡◌, length};
ghost use Rattle.octets.specs.Area.{Wrote};
ghost use Rattle.iso8211.specs.Leader.{size_at, base_at};
ghost use Rattle.items.specs.Premises.{LaidOut};
ghost use Rattle.asheld.specs.Held.{Held, Same, long_of, base_of, front_of, whole_of, held_bytes};

use octets::area::copy;
use octets::digits::{put_digits, sure_digits};
use octets::number::put2;

// The length of a record, a space, D, and five spaces.
fn put_long(out: &mut [u8], at: usize, size: u32) -> usize
    requires { at + 12 ≤ length out.old }
    ensures { Wrote out.old at (long_of size) out.new result × (result ≡ at + 12) }
{
    let a = put_digits(out, at, 5, size);
    copy(b" D     ", out, a)
}

// The base address, and three spaces.
fn put_base(out: &mut [u8], at: usize, base: u32) -> usize
    requires { at + 8 ≤ length out.old }
    ensures { Wrote out.old at (base_of base) out.new result × (result ≡ at + 8) }
{
    let a = put_digits(out, at, 5, base);
    copy(b"   ", out, a)
}

// A leader as far as its digit sizes.
fn put_front(out: &mut [u8], at: usize, size: u32, base: u32) -> usize
    requires { at + 20 ≤ length out.old }
    ensures { Wrote out.old at (front_of size base) out.new result × (result ≡ at + 20) }
{
    let a = put_long(out, at, size);
    put_base(out, a, base)
}

// With all behind that, as it stands in the record at `at`.
fn put_whole(s: &[u8], at: usize, base: u32, size: u32, out: &mut [u8], place: usize) -> usize
    requires { (20 ≤ size) × ((at + size ≤ length s.now) × (place + size ≤ length out.old)) }
    ensures { Wrote out.old place (whole_of s.now at base size) out.new result }
{
    let a = put_front(out, place, size, base);
    let from = at + 20;
    let to = at + size as usize;
    copy(&s[from..to], out, a)
}

// Such a record, from `place` on, with its running number, which goes over the one that stood there.
pub fn put_held(
    s: &[u8],
    at: usize,
    base: usize,
    size: u32,
    out: &mut [u8],
    place: usize,
    number: u32,
) -> usize
    requires { LaidOut s.now at × (Held s.now at size × ((base ≡ base_at s.now at) × ((base + 2 ≤ size) × (place + size ≤ length out.old)))) }
    ensures { Wrote out.old place (held_bytes number s.now at size) out.new result }
{
    let end = put_whole(s, at, base as u32, size, out, place);
    put2(out, place + base, number);
    end
}

// The same where the leader is that of the held form too: the record is copied whole.
pub fn put_same(s: &[u8], at: usize, out: &mut [u8], place: usize, number: u32) -> usize
    requires { LaidOut s.now at × (Same s.now at × ((base_at s.now at + 2 ≤ size_at s.now at) × (place + size_at s.now at ≤ length out.old))) }
    ensures { Wrote out.old place (held_bytes number s.now at (size_at s.now at)) out.new result }
{
    let size = sure_digits(s, at, 5) as usize;
    let base = sure_digits(s, at + 12, 5) as usize;
    let to = at + size;
    let end = copy(&s[at..to], out, place);
    put2(out, place + base, number);
    end
}
