// The three parts of a field of record 0: name, labels and formats.
ghost use Rattle.std.specs.Prelude.{◌+◌, ◌-◌, ◌≤◌, ◌≡◌, length, take, drop};
ghost use Rattle.fieldparts.specs.Same.{same_list};
ghost use Rattle.fieldparts.specs.Descriptive.{separator_at, parts_of};

// Where the first and the second 1F of a field stand: the name is before the first, the labels are
// between them, the formats behind the second up to the closing 1E. Both 0: there are no such.
#[derive(Drop)]
pub struct Parts {
    pub name: usize,
    pub labels: usize,
}

// The first 1F at or after `from`; at the field's end or past it where there is none.
fn separator(field: &[u8], from: usize) -> usize
    ensures { (result ≡ separator_at field.now from) × ((from ≤ result) × (result ≤ from + (length field.now - from))) }
{
    for i in from..field.len() {
        if field[i] == 31 {
            return i;
        }
    }
    from.max(field.len())
}

// The parts of a whole field, its closing 1E included.
pub fn cut(field: &[u8]) -> Parts
    ensures { result ≡ parts_of field.now }
{
    let name = separator(field, 9);
    let labels = separator(field, name + 1);
    if labels + 1 < field.len() {
        Parts { name, labels }
    } else {
        Parts { name: 0, labels: 0 }
    }
}

fn same(a: &[u8], b: &[u8]) -> bool
    ensures { result ≡ same_list a.now b.now }
{
    a == b
}

// Whether the bytes of `s` from `from` to `to` are those of `t`.
pub fn same_bytes(s: &[u8], from: usize, to: usize, t: &[u8]) -> bool
    requires { (from ≤ to) × (to ≤ length s.now) }
    ensures { result ≡ same_list (take (to - from) (drop from s.now)) t.now }
{
    same(&s[from..to], t)
}
