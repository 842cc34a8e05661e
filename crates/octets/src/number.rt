// Numbers of one, two, four and eight bytes, low byte first, read and written.
ghost use Rattle.std.specs.Prelude.{◌≡◌, ◌+◌, ◌<◌, ◌≤◌, length};
ghost use Rattle.octets.specs.Number.{bytes_of};
ghost use Rattle.octets.specs.Premises.{Reads};
ghost use Rattle.octets.specs.Area.{Wrote};

// A byte as a wider number: with its bound, which a cast in place would lose.
pub fn wide(b: u8) -> u32
    ensures { (result ≡ b) × (result < 256) }
{
    b as u32
}

pub fn get1(s: &[u8], p: usize) -> u32
    requires { p + 1 ≤ length s.now }
    ensures { Reads s.now p 1 result }
{
    wide(s[p])
}

pub fn get2(s: &[u8], p: usize) -> u32
    requires { p + 2 ≤ length s.now }
    ensures { Reads s.now p 2 result }
{
    get1(s, p) + 256 * get1(s, p + 1)
}

pub fn get4(s: &[u8], p: usize) -> u32
    requires { p + 4 ≤ length s.now }
    ensures { Reads s.now p 4 result }
{
    get2(s, p) + 65536 * get2(s, p + 2)
}

pub fn get8(s: &[u8], p: usize) -> u64
    requires { p + 8 ≤ length s.now }
    ensures { Reads s.now p 8 result }
{
    let low = get4(s, p) as u64;
    let high = get4(s, p + 4) as u64;
    low + 4294967296 * high
}

// One byte written at `at`; the answer is where the next byte goes.
pub fn put1(area: &mut [u8], at: usize, b: u8) -> usize
    requires { at + 1 ≤ length area.old }
    ensures { Wrote area.old at (bytes_of 1 b) area.new result }
{
    area[at] = b;
    at + 1
}

pub fn put2(area: &mut [u8], at: usize, v: u32) -> usize
    requires { at + 2 ≤ length area.old }
    ensures { Wrote area.old at (bytes_of 2 v) area.new result }
{
    let next = put1(area, at, (v % 256) as u8);
    put1(area, next, (v / 256 % 256) as u8)
}

pub fn put4(area: &mut [u8], at: usize, v: u32) -> usize
    requires { at + 4 ≤ length area.old }
    ensures { Wrote area.old at (bytes_of 4 v) area.new result }
{
    let next = put2(area, at, v % 65536);
    put2(area, next, v / 65536)
}

pub fn put8(area: &mut [u8], at: usize, v: u64) -> usize
    requires { at + 8 ≤ length area.old }
    ensures { Wrote area.old at (bytes_of 8 v) area.new result }
{
    let next = put4(area, at, (v % 4294967296) as u32);
    put4(area, next, (v / 4294967296) as u32)
}
