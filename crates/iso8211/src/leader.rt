// The leader of a record.
ghost use Rattle.std.specs.Prelude.{◌+◌, ◌≤◌, ◌≡◌, length};
ghost use Rattle.iso8211.specs.Leader.{kind_good, size_good, leader_good};

// Whether the record is of the kind due here: record 0 descriptive, all others data.
fn kind_good(s: &[u8], at: usize, first: bool) -> bool
    requires { at + 24 ≤ length s.now }
    ensures { result ≡ kind_good first s.now at }
{
    if first {
        if s[at + 6] != 76 {
            return false;
        }
        if s[at + 10] != 48 {
            return false;
        }
        return s[at + 11] == 57;
    }
    s[at + 6] == 68
}

// Whether a digit 1 to 9 stands at i.
fn size_good(s: &[u8], i: usize) -> bool
    requires { i + 1 ≤ length s.now }
    ensures { result ≡ size_good s.now i }
{
    if s[i] < 49 {
        return false;
    }
    s[i] <= 57
}

pub fn leader_good(s: &[u8], at: usize, first: bool) -> bool
    requires { at ≤ length s.now }
    ensures { result ≡ leader_good first s.now at }
{
    if s.len() < at + 24 {
        return false;
    }
    if !kind_good(s, at, first) {
        return false;
    }
    if !size_good(s, at + 20) {
        return false;
    }
    if !size_good(s, at + 21) {
        return false;
    }
    if s[at + 22] != 48 {
        return false;
    }
    s[at + 23] == 52
}
