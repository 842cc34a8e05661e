// The format list of a field of record 0, written out: brackets opened, counts carried out, and the
// comparison of two such lists. It takes bytes and digits from `octets` and knows nothing of charts.
#![tactic(auto)]

ghost use Rattle.std.specs.Prelude.{◌+◌, ◌*◌, ◌≤◌, ◌<◌, ◌≡◌, ◌++◌, length, take};
ghost use Rattle.fieldparts.specs.Same.{same_list};
ghost use Rattle.formats.specs.Formats.{short_at, count_at, is_letter, counts, sized_at, binary_at, primitive_at, form, single, repeated, joined, item_at, list_at, written_at};
ghost use Rattle.formats.specs.Premises.{Seen, Digit, Short, Primitive, Filled, Written, forms_of, nothing};

use octets::number::wide;

// A number or a primitive's code, and the index past it. The value 0: there is none.
#[derive(Drop)]
pub struct Taken {
    pub value: u32,
    pub next: usize,
}

// The primitives of a format list, written out, and the index past its closing bracket. The items
// beyond `count` are 0; `end` 0: there is no good list.
#[derive(Clone, Copy)]
pub struct Formats {
    pub items: [u32; 32],
    pub count: usize,
    pub end: usize,
}

// The byte at `at`, 0 past the end.
fn byte(s: &[u8], at: usize) -> u32
    ensures { Seen s.now at result }
{
    if at < s.len() { wide(s[at]) } else { 0 }
}

// The digit at `at`, 10 where there is none.
fn digit(s: &[u8], at: usize) -> u32
    ensures { Digit s.now at result }
{
    let b = byte(s, at);
    if 48 <= b && b <= 57 { b - 48 } else { 10 }
}

// A number of one to three digits, the first not 0.
fn short(s: &[u8], at: usize) -> Taken
    requires { at ≤ length s.now }
    ensures { Short (short_at s.now at) s.now at result }
{
    if digit(s, at) == 0 {
        return Taken { value: 0, next: at };
    }
    let mut led: u32 = 0;
    for n in 0..3 {
        let d = digit(s, at + n);
        if 9 < d {
            return Taken {
                value: led,
                next: at + n,
            };
        }
        led = led * 10 + d;
    }
    Taken {
        value: led,
        next: at + 3,
    }
}

// A repeat count; 1 where none is written.
fn count(s: &[u8], at: usize) -> Taken
    requires { at ≤ length s.now }
    ensures { Short (count_at s.now at) s.now at result }
{
    if 9 < digit(s, at) {
        Taken { value: 1, next: at }
    } else {
        short(s, at)
    }
}

fn is_letter(b: u32) -> bool
    ensures { result ≡ is_letter b }
{
    matches!(b, 65 | 73 | 82 | 66)
}

// The primitive of a letter, with a bracketed size or without.
fn sized(s: &[u8], at: usize) -> Taken
    requires { at < length s.now }
    ensures { Primitive (sized_at s.now at) s.now result }
{
    let letter = byte(s, at);
    if byte(s, at + 1) != 40 {
        return Taken {
            value: letter,
            next: at + 1,
        };
    }
    let size = short(s, at + 2);
    let end = size.next;
    if size.value < 1 || byte(s, end) != 41 {
        return Taken { value: 0, next: 0 };
    }
    Taken {
        value: letter + 256 * size.value,
        next: end + 1,
    }
}

fn counting(d: u32) -> bool
    ensures { result ≡ counts d }
{
    1 <= d && d <= 9
}

// The primitive of b and two digits.
fn binary(s: &[u8], at: usize) -> Taken
    requires { at < length s.now }
    ensures { Primitive (binary_at s.now at) s.now result }
{
    let tens = digit(s, at + 1);
    let ones = digit(s, at + 2);
    if !counting(tens) || !counting(ones) {
        return Taken { value: 0, next: 0 };
    }
    Taken {
        value: 98 + 256 * (tens * 10 + ones),
        next: at + 3,
    }
}

fn primitive(s: &[u8], at: usize) -> Taken
    ensures { Primitive (primitive_at s.now at) s.now result }
{
    let b = byte(s, at);
    if b == 98 {
        return binary(s, at);
    }
    if is_letter(b) {
        return sized(s, at);
    }
    Taken { value: 0, next: 0 }
}

fn none() -> Formats
    ensures { result ≡ nothing }
{
    Formats {
        items: [0u32; 32],
        count: 0,
        end: 0,
    }
}

// A primitive as a list of one.
fn alone(s: &[u8], at: usize) -> Formats
    ensures { Written (single (primitive_at s.now at)) (length s.now) result }
{
    let p = primitive(s, at);
    if p.value == 0 {
        return none();
    }
    let mut items = [0u32; 32];
    items[0] = p.value;
    Formats {
        items,
        count: 1,
        end: p.next,
    }
}

// What is led, and a part behind it.
fn add(led: Formats, part: Formats) -> Formats
    requires { (Filled led) × (Filled part) × (led.count + part.count ≤ 32) }
    ensures { Written (form (take led.count led.items ++ take part.count part.items) part.end) part.end result × (result.count ≡ led.count + part.count) }
{
    let mut items = led.items;
    let from = led.count;
    let count = from + part.count;
    items[from..count].copy_from_slice(&part.items[..part.count]);
    Formats {
        items,
        count,
        end: part.end,
    }
}

// What is led, and a part `times` times behind it.
fn repeat(led: Formats, times: usize, part: Formats) -> Formats
    requires { (Filled led) × (Filled part) × (led.count + times * part.count ≤ 32) }
    ensures { Written (form (take led.count led.items ++ repeated times (take part.count part.items)) part.end) part.end result }
{
    let mut all = led;
    for _ in 0..times {
        all = add(all, part);
    }
    Formats {
        end: part.end,
        ..all
    }
}

// An item behind what is led, as often as its count says, where that makes at most 32.
fn join(led: Formats, times: u32, part: Formats) -> Formats
    requires { (Filled led) × (Filled part) }
    ensures { Written (joined (forms_of led).items times (forms_of part)) part.end result }
{
    if part.end == 0 {
        return none();
    }
    if times < 1 || 99 < times {
        return none();
    }
    let k = times as usize;
    if 32 < led.count + k * part.count {
        return none();
    }
    repeat(led, k, part)
}

// The item at `at`: the list that was written out there, where a bracket opens it, else a primitive.
fn item(s: &[u8], at: usize, inner: Formats) -> Formats
    requires { (Filled inner) × (inner.end ≤ length s.now) }
    ensures { Written (item_at (forms_of inner) s.now at) (length s.now) result }
{
    if byte(s, at) == 40 {
        inner
    } else {
        alone(s, at)
    }
}

// The list that starts at `at`, with so many levels of brackets left. Each item has a primitive of
// its own, so that a list of more than 32 items is never good.
fn list(s: &[u8], at: usize, levels: usize) -> Formats
    ensures { Written (list_at levels s.now at) (length s.now) result }
{
    if levels == 0 {
        return none();
    }
    if byte(s, at) != 40 {
        return none();
    }
    let mut led = none();
    let mut from = at + 1;
    for _ in 0..32usize {
        let times = count(s, from);
        let start = times.next;
        // Where no bracket opens, this answers at once that there is no list: the item is a primitive.
        let inner = list(s, start, levels - 1);
        let part = item(s, start, inner);
        led = join(led, times.value, part);
        let end = led.end;
        if end == 0 {
            return none();
        }
        let mark = byte(s, end);
        if mark == 41 {
            return Formats {
                end: end + 1,
                ..led
            };
        }
        if mark != 44 {
            return none();
        }
        from = end + 1;
    }
    none()
}

// The format list that starts at `at`, written out: at most 4 levels of brackets.
pub fn write_out(s: &[u8], at: usize) -> Formats
    ensures { Written (written_at s.now at) (length s.now) result }
{
    list(s, at, 4)
}

// How many of the items are used.
fn used(f: Formats) -> usize
    ensures { (result ≡ length (forms_of f).items) × (result ≤ 32) }
{
    f.count.min(32)
}

// Whether two lists have the same primitives, wherever they ended.
pub fn same_formats(a: Formats, b: Formats) -> bool
    ensures { result ≡ same_list (forms_of a).items (forms_of b).items }
{
    a.items[..used(a)] == b.items[..used(b)]
}
