// What a call answers.
ghost use Rattle.std.specs.Prelude.{◌≡◌};
ghost use Rattle.answers.specs.Answer.{answer, answer_of, filed};

use crate::refusal::Refusal;

// The code, the file (0 none, 1 cell, 2 update, 3 result), the record, the number, and the byte of the file.
#[derive(Clone, Copy)]
pub struct Answer {
    pub code: u32,
    pub file: u32,
    pub index: usize,
    pub number: usize,
    pub offset: usize,
}

pub fn answered(code: u32, file: u32, index: usize, number: usize, offset: usize) -> Answer
    ensures { result ≡ answer code file index number offset }
{
    Answer {
        code,
        file,
        index,
        number,
        offset,
    }
}

// A refusal as the answer for its file.
pub fn of_refusal(file: u32, r: Refusal) -> Answer
    ensures { result ≡ answer r.code file r.index 0 r.offset }
{
    answered(r.code, file, r.index, 0, r.offset)
}

// The same of a refusal whose code may be 0: no refusal has neither file nor record.
pub fn filed(file: u32, r: Refusal) -> Answer
    ensures { result ≡ filed file r }
{
    let code = r.code;
    if code == 0 {
        return answered(0, 0, 0, 0, 0);
    }
    of_refusal(file, r)
}

// The same of a stage; one that refuses nothing has neither file nor record.
pub fn answer_of(file: u32, r: Result<(), Refusal>) -> Answer
    ensures { result ≡ answer_of file r }
{
    match r {
        Ok(()) => answered(0, 0, 0, 0, 0),
        Err(refusal) => of_refusal(file, refusal),
    }
}
