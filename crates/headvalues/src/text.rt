// Text: which bytes it is made of, and where it ends.
ghost use Rattle.std.specs.Prelude.{◌-◌, ◌≤◌, max, ◌≡◌, length, take, drop};
ghost use Rattle.headvalues.specs.Text.{is_text, text_good, text_end};

// Whether a byte is a text byte; `high` lets those from A0 on pass too.
pub fn is_text(b: u8, high: bool) -> bool
    ensures { result ≡ is_text high b }
{
    match b {
        0x20..=0x7E => true,
        0xA0..=0xFF => high,
        _ => false,
    }
}

// Whether all of `s` is text.
pub fn text_good(s: &[u8], high: bool) -> bool
    ensures { result ≡ text_good high s.now }
{
    for &b in s {
        if !is_text(b, high) {
            return false;
        }
    }
    true
}

// Whether the bytes from `from` up to `to` are text.
pub fn text_good_in(s: &[u8], from: usize, to: usize, high: bool) -> bool
    requires { (from ≤ to) × (to ≤ length s.now) }
    ensures { result ≡ text_good high (take (to - from) (drop from s.now)) }
{
    text_good(&s[from..to], high)
}

// Where the text that begins at `from` ends: at the first 1F, or where `s` ends.
pub fn text_end(s: &[u8], from: usize) -> usize
    ensures { (result ≡ text_end s.now from) × (from ≤ result) × (result ≤ max from (length s.now)) }
{
    for i in from..s.len() {
        if s[i] == 31 {
            return i;
        }
    }
    from.max(s.len())
}
