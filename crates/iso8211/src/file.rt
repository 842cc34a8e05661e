// A file of records.
ghost use Rattle.std.specs.Prelude.{◌≡◌};
ghost use Rattle.iso8211.specs.File.{frame_of};

use crate::record::good_end;

// How many records the file has if it is one or more good records and nothing after; or else which
// is the first whose framing is broken.
pub fn frame(file: &[u8]) -> Result<usize, usize>
    ensures { result ≡ frame_of file.now }
{
    let mut at: usize = 0;
    let mut k: usize = 0;
    // A while: where a record starts is told by the one before.
    while let Some(end) = good_end(file, at, k == 0) {
        if end == file.len() {
            return Ok(k + 1);
        }
        at = end;
        k += 1;
    }
    Err(k)
}
