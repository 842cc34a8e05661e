// A part of one of the two files.
ghost use Rattle.std.specs.Prelude.{◌+◌, ◌≤◌, ◌≡◌, length, take, drop};
ghost use Rattle.iso8211.specs.Premises.{FramedAt};
ghost use Rattle.show.specs.Show.{span_of, bytes_of_span};
ghost use Rattle.show.specs.Place.{within, place_of_span};
ghost use Rattle.show.specs.Listed.{SpanIn};

use iso8211::field::record_end;

// `size` bytes of the update, or of the cell, from `from` on.
#[derive(Clone, Copy)]
pub struct Span {
    pub update: bool,
    pub from: usize,
    pub size: usize,
}

// The record at `at` of the update, or of the cell, whole.
pub fn span_of(s: &[u8], at: usize, update: bool) -> Span
    requires { FramedAt s.now at }
    ensures { result ≡ span_of update s.now at }
{
    let size = record_end(s, at) - at;
    Span {
        update,
        from: at,
        size,
    }
}

// So many bytes of a file.
fn part(s: &[u8], from: usize, size: usize) -> &[u8]
    requires { from + size ≤ length s.now }
    ensures result_value { result.now ≡ take size (drop from s.now) }
    ensures ref_ptr_value { result.ref_ptr ≡ within s.entry.ref_ptr from }
{
    let to = from + size;
    &s[from..to]
}

// The part itself, tied to both files.
pub fn lent<'a>(cell: &'a [u8], update: &'a [u8], span: Span) -> &'a [u8]
    requires { SpanIn cell.now update.now span }
    ensures result_value { result.now ≡ bytes_of_span cell.now update.now span }
    ensures ref_ptr_value { result.ref_ptr ≡ place_of_span cell.entry.ref_ptr update.entry.ref_ptr span }
{
    if span.update {
        return part(update, span.from, span.size);
    }
    part(cell, span.from, span.size)
}
