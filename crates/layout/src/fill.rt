// Whether a field is filled by its subfields.
ghost use Rattle.std.specs.Prelude.{◌≡◌};
ghost use Rattle.layout.specs.Layout.{filled};

use dataset::dsid_laid;
use entries::{Shape, whole};
use headvalues::dspm::dspm_laid;
use table::{kind_row, kinds};

// Whether the bytes of a field of kind k, without its closing 1E, hold its subfields and no more.
pub fn filled(c: &[u8], k: usize) -> bool
    ensures { result ≡ filled k c.now }
{
    if k == kinds::DSID {
        return dsid_laid(c);
    }
    if k == kinds::DSPM {
        return dspm_laid(c);
    }
    let row = kind_row(k);
    if row.list {
        let shape = Shape {
            fixed: row.fixed,
            unit: row.unit,
        };
        return whole(c, shape);
    }
    c.len() == row.fixed
}
