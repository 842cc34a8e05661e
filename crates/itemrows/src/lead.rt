// What stands in a record before its lists: 0001 and the identifier fields.
ghost use Rattle.std.specs.Prelude.{◌+◌, ◌≤◌, ◌≡◌, [], ◌∷◌, ◌++◌, length, take, drop};
ghost use Rattle.octets.specs.Number.{bytes_of};
ghost use Rattle.octets.specs.Area.{Wrote};

use octets::area::copy;
use octets::number::{put1, put2};
use table::tags;

// 0001 with its running number, and n bytes as they stand.
pub fn put_lead(s: &[u8], from: usize, n: usize, out: &mut [u8], place: usize, number: u32) -> usize
    requires { (from + n ≤ length s.now) × (place + (3 + n) ≤ length out.old) }
    ensures { Wrote out.old place (bytes_of 2 number ++ (30 ∷ take n (drop from s.now))) out.new result × (result ≡ place + (3 + n)) }
{
    let a = put2(out, place, number);
    let b = put1(out, a, 30);
    let to = from + n;
    copy(&s[from..to], out, b)
}

// The rows before the lists of a vector: 0001, VRID.
pub fn vector_rows() -> [[u32; 3]; 8]
    ensures { take 2 result ≡ (808464433 ∷ 3 ∷ 0 ∷ []) ∷ (1448233284 ∷ 9 ∷ 3 ∷ []) ∷ [] }
{
    let mut rows = [[0u32; 3]; 8];
    rows[0] = [tags::FIRST, 3, 0];
    rows[1] = [tags::VRID, 9, 3];
    rows
}

// Those of a feature: 0001, FRID, FOID.
pub fn feature_rows() -> [[u32; 3]; 8]
    ensures { take 3 result ≡ (808464433 ∷ 3 ∷ 0 ∷ []) ∷ (1179797828 ∷ 13 ∷ 3 ∷ []) ∷ (1179601220 ∷ 9 ∷ 16 ∷ []) ∷ [] }
{
    let mut rows = [[0u32; 3]; 8];
    rows[0] = [tags::FIRST, 3, 0];
    rows[1] = [tags::FRID, 13, 3];
    rows[2] = [tags::FOID, 9, 16];
    rows
}
