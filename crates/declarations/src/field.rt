// A field of record 0 against the table.
ghost use Rattle.std.specs.Prelude.{◌≡◌, ◌+◌, ◌≤◌, length};
ghost use Rattle.declarations.specs.Described.{field_bytes, describes};

use crate::texts::same_row;
use fieldparts::descriptive::cut;
use iso8211::field::Field;

// Whether a field of record 0 describes fields of kind k as the table does.
fn describes(field: &[u8], k: usize) -> bool
    ensures { result ≡ describes k field.now }
{
    let parts = cut(field);
    if parts.name == 0 {
        return false;
    }
    same_row(field, parts, k)
}

// The same of a field in its file.
pub fn describes_at(s: &[u8], f: Field, k: usize) -> bool
    requires { f.start + f.length ≤ length s.now }
    ensures { result ≡ describes k (field_bytes s.now f) }
{
    let from = f.start;
    let to = from + f.length;
    describes(&s[from..to], k)
}
