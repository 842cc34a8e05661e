// The lists of a record of a file, each with where it lies: what one walk over the fields finds.
ghost use Rattle.lying.specs.Lying.{Lain};

use iso8211::field::Record;

// How many numbers the places of all kinds are: of each where its field starts, then of each where it
// ends.
pub const PLACES: usize = 40;

// A record, and the places of its fields.
#[derive(Drop)]
pub struct Lists<'a> {
    pub record: Record<'a>,
    pub places: [usize; PLACES],
    pub ghost lain: { Lain record.file.now record.at places },
}
