// Faults: where the first wrong subfield of a field begins.
ghost use Rattle.std.specs.Prelude.{◌≡◌};
ghost use Rattle.values.specs.Fault.{fault_at, told};

// The byte at which the first wrong subfield begins, or of a layout the first wrong field: of what was judged, a field
// or a file.
#[derive(Clone, Copy)]
pub struct Fault {
    pub at: usize,
}

// Ok where the rule of the subfield that begins at `at` holds, else the fault there.
pub fn holds(rule: bool, at: usize) -> Result<(), Fault>
    ensures { result ≡ told (fault_at at rule) }
{
    if rule {
        return Ok(());
    }
    Err(Fault { at })
}
