// The entries of a list field: a byte string cut by the shape of its entries. It serves all eight
// list kinds, and single fields of one such shape, and promises the crates above where each entry
// starts and ends, how many there are, and that they fill the field. Of `octets` it takes numbers
// in bytes.
#![tactic(auto)]

ghost use Rattle.std.specs.Prelude.{◌+◌, ◌-◌, ◌≤◌, ◌≡◌, length, drop, eqb};
ghost use Rattle.entries.specs.Entries.{unit_of, text_len, entry_len, extent_of, whole_good};
ghost use Rattle.entries.specs.Premises.{Sound, place};

use octets::number::get2;

// How an entry looks: fixed bytes, then a text of units of `unit` bytes up to the unit 1F. Where
// `unit` is 0 there is no text.
#[derive(Clone, Copy)]
pub struct Shape {
    pub fixed: usize,
    pub unit: usize,
}

// How many whole entries stand at the front of some bytes, and where they end.
#[derive(Drop)]
pub struct Extent {
    pub count: usize,
    pub end: usize,
}

// Whether the unit of text at `at` is the terminator 1F.
fn ends_at(b: &[u8], at: usize, unit: usize) -> bool
    requires { (at + unit ≤ length b.now) × (1 ≤ unit) × (unit ≤ 2) }
    ensures { result ≡ eqb (unit_of unit (drop at b.now)) 31 }
{
    if unit == 1 {
        b[at] == 31
    } else {
        get2(b, at) == 31
    }
}

// The length of the text at `from`, its terminator and the bytes from `at` on that lead to it
// counted; 0 where no terminator comes.
fn led_text_len(b: &[u8], at: usize, from: usize, unit: usize) -> usize
    requires { (at ≤ from) × (from ≤ length b.now) × (1 ≤ unit) × (unit ≤ 2) }
    ensures { (result ≡ text_len unit (drop from b.now) (from - at)) × (at + result ≤ length b.now) }
{
    let mut i = from;
    // A while: the step is the unit's own width, and what is left at the end may be less than a unit.
    while unit <= b.len() - i {
        let past = i + unit;
        if ends_at(b, i, unit) {
            return past - at;
        }
        i = past;
    }
    0
}

// The length of the entry at `at`; 0 where no whole entry stands there. A walk over a list goes by
// this one, so that no part is lent on the way.
pub fn entry_len_at(b: &[u8], at: usize, sh: Shape) -> usize
    requires { (at ≤ length b.now) × Sound sh }
    ensures { (result ≡ entry_len sh (drop at b.now)) × (at + result ≤ length b.now) }
{
    let fixed = sh.fixed;
    let unit = sh.unit;
    if b.len() - at < fixed {
        return 0;
    }
    if unit == 0 {
        return fixed;
    }
    led_text_len(b, at, at + fixed, unit)
}

// The length of the entry at the front; 0 where no whole entry stands there.
pub fn entry_len(b: &[u8], sh: Shape) -> usize
    requires { Sound sh }
    ensures { (result ≡ entry_len sh b.now) × (result ≤ length b.now) }
{
    entry_len_at(b, 0, sh)
}

// The extent of entries without a text: all have the fixed bytes, so that a division counts them.
fn even_extent(b: &[u8], sh: Shape) -> Extent
    requires { Sound sh × (sh.unit ≡ 0) }
    ensures { (result ≡ extent_of sh b.now) × (result.end ≤ length b.now) × (result.count ≤ length b.now) }
{
    let fixed = sh.fixed;
    let count = b.len() / fixed;
    Extent {
        count,
        end: count * fixed,
    }
}

// How many whole entries stand at the front, and where they end.
pub fn extent_of(b: &[u8], sh: Shape) -> Extent
    requires { Sound sh }
    ensures { (result ≡ extent_of sh b.now) × (result.end ≤ length b.now) × (result.count ≤ length b.now) }
{
    if sh.unit == 0 {
        return even_extent(b, sh);
    }
    let mut at: usize = 0;
    let mut count: usize = 0;
    // A loop: the step is the entry's own length, which also tells where the entries end.
    loop {
        let n = entry_len_at(b, at, sh);
        if n == 0 {
            return Extent { count, end: at };
        }
        at += n;
        count += 1;
    }
}

// Whether the bytes are one whole entry or more and nothing else.
pub fn whole(b: &[u8], sh: Shape) -> bool
    requires { Sound sh }
    ensures { result ≡ whole_good sh b.now }
{
    let Extent { count, end } = extent_of(b, sh);
    1 <= count && end == b.len()
}

// The place of entry k where no entry has a text: a product.
fn even_place(b: &[u8], sh: Shape, k: usize) -> usize
    requires { Sound sh × (sh.unit ≡ 0) }
    ensures { (result ≡ place sh k b.now) × (result ≤ length b.now) }
{
    k.min(even_extent(b, sh).count) * sh.fixed
}

// Where entry k starts; past the last, where the entries end.
pub fn place_of(b: &[u8], sh: Shape, k: usize) -> usize
    requires { Sound sh }
    ensures { (result ≡ place sh k b.now) × (result ≤ length b.now) }
{
    if sh.unit == 0 {
        return even_place(b, sh, k);
    }
    let mut at: usize = 0;
    for _ in 0..k {
        let n = entry_len_at(b, at, sh);
        if n == 0 {
            break;
        }
        at += n;
    }
    at
}
