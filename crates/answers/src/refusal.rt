// What a stage of reading or judging a file refuses: it answers `Result<(), Refusal>`.
ghost use Rattle.std.specs.Prelude.{◌≡◌};
ghost use Rattle.answers.specs.Answer.{refusal};

// A refusal: its code in document 01's table, the record, and the byte of the file.
#[derive(Clone, Copy)]
pub struct Refusal {
    pub code: u32,
    pub index: usize,
    pub offset: usize,
}

pub fn refuse(code: u32, index: usize, offset: usize) -> Refusal
    ensures { result ≡ refusal code index offset }
{
    Refusal {
        code,
        index,
        offset,
    }
}
