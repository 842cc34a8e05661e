// A control as it was read, and whether it may act on a list.
ghost use Rattle.std.specs.Prelude.{◌≤◌, ◌≡◌, IfSome};
ghost use Rattle.edits.specs.Control.{gone, come, allowed};
ghost use Rattle.edits.specs.Lists.{list_allowed};
ghost use Rattle.splice.specs.Given.{numbers_of, option_of, Given};

// VRPC, SGCC, FFPC or FSPC where it stands.
#[derive(Clone, Copy)]
pub struct Control {
    pub instruction: u32,
    pub index: usize,
    pub count: usize,
}

// How many held entries go: none at an insert.
pub fn gone_of(c: Control) -> usize
    ensures { (result ≡ gone (numbers_of c)) × (result ≤ c.count) }
{
    if c.instruction == 1 { 0 } else { c.count }
}

// How many entries come: none at a delete.
fn come_of(c: Control) -> usize
    ensures { result ≡ come (numbers_of c) }
{
    if c.instruction == 2 { 0 } else { c.count }
}

// Whether a control that stands may act on a list of `held` entries, the update bringing `brought`.
fn acts_on(c: Control, held: usize, brought: usize) -> bool
    requires { Given c × (held ≤ 300000) }
    ensures { result ≡ allowed (numbers_of c) held brought }
{
    let come = come_of(c);
    let end = c.index + gone_of(c);
    1 <= c.instruction
        && c.instruction <= 3
        && 1 <= c.index
        && 1 <= c.count
        && brought == come
        && end <= held + 1
}

// The same where it may not stand: a list without control may bring nothing.
pub fn is_allowed(control: Option<Control>, held: usize, brought: usize) -> bool
    requires { IfSome control Given × (held ≤ 300000) }
    ensures { result ≡ list_allowed (option_of control) held brought }
{
    match control {
        Some(c) => acts_on(c, held, brought),
        None => brought == 0,
    }
}
