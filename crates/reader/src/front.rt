// Codes 1 and 2 of a file.
ghost use Rattle.std.specs.Prelude.{◌≡◌, ◌≤◌, length};
ghost use Rattle.answers.specs.Codes.{most_bytes};
ghost use Rattle.reader.specs.Lent.{FramedTo, StartTold};
ghost use Rattle.reader.specs.Reader.{front_of};

use answers::Answer;
use answers::answer::answered;
use answers::codes::{FRAME, LONG, MOST_BYTES};
use iso8211::record::good_end;

// Code 1, and code 2 of record 0: where record 1 starts, or the refusal.
pub fn started(s: &[u8], file: u32) -> Result<usize, Answer>
    ensures { StartTold file s.now result }
{
    if MOST_BYTES < s.len() {
        return Err(answered(LONG, file, 0, 0, 0));
    }
    let Some(end) = good_end(s, 0, true) else {
        return Err(answered(FRAME, file, 0, 0, 0));
    };
    Ok(end)
}

// Code 2 of a file whose records before one, not record 0, are known to be good: that one is record
// `first`, and it starts at `start`. The number of all records, or the refusal.
pub fn opened_from(s: &[u8], file: u32, first: usize, start: usize) -> Result<usize, Answer>
    requires { FramedTo s.now first start × (length s.now ≤ most_bytes) }
    ensures { result ≡ front_of file s.now }
{
    let mut at = start;
    let mut k = first;
    // A while: the step is the record's own length.
    while at < s.len() {
        let Some(end) = good_end(s, at, false) else {
            return Err(answered(FRAME, file, k, 0, at));
        };
        at = end;
        k += 1;
    }
    Ok(k)
}

// A file opened, codes 1 and 2: how many records it has, or the refusal.
pub fn opened(s: &[u8], file: u32) -> Result<usize, Answer>
    ensures { result ≡ front_of file s.now }
{
    let at = started(s, file)?;
    opened_from(s, file, 1, at)
}
