// A walk over the records of a file, from an index to a place and back.
ghost use Rattle.std.specs.Prelude.{ℕ, ◌≤◌, ◌<◌, ◌≡◌, length, Ok};
ghost use Rattle.iso8211.specs.File.{frame_of, record_at};
ghost use Rattle.names.specs.Names.{first_item};

use iso8211::field::record_end;

// The first record of a vector or a feature.
pub fn first_item(update: bool) -> usize
    ensures { (result ≡ first_item update) × (result ≤ 3) }
{
    if update {
        return 2;
    }
    3
}

// Where record k starts, or, k being their number, where the last ends.
pub fn start_of(s: &[u8], n: usize, k: usize) -> usize
    requires { (frame_of s.now ≡ Ok n) × (k ≤ n) }
    ensures { result ≡ record_at s.now k }
{
    let mut at: usize = 0;
    for _ in 0..k {
        at = record_end(s, at);
    }
    at
}

// Which record starts at p.
pub fn record_from(s: &[u8], n: usize, p: usize) -> usize
    requires { (frame_of s.now ≡ Ok n) × (p < length s.now) }
    ensures { (k : ℕ) → k < n → p ≡ record_at s.now k → result ≡ k }
{
    let mut at: usize = 0;
    let mut k: usize = 0;
    // A while: how many records stand before p is what is asked.
    while at < p {
        at = record_end(s, at);
        k += 1;
    }
    k
}
