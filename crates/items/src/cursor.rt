// A place in a list that may stand in several fields.
ghost use Rattle.std.specs.Prelude.{◌≡◌};

// A place in a list: the bytes from `from` up to `to` of the file come next, then those of the
// fields from `field` on.
#[derive(Drop)]
pub struct Cursor {
    pub field: usize,
    pub from: usize,
    pub to: usize,
}

// Before the first entry of any list.
pub fn begin() -> Cursor
    ensures { result ≡ record { field = 0; from = 0; to = 0 } }
{
    Cursor {
        field: 0,
        from: 0,
        to: 0,
    }
}
