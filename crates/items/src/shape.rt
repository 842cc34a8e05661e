// The shapes of the lists' entries.
ghost use Rattle.std.specs.Prelude.{◌≡◌};
ghost use Rattle.entries.specs.Premises.{Sound};
ghost use Rattle.layout.specs.Layout.{shape_of};

use entries::Shape;
use table::kind_row;

// How an entry of a list of kind k looks.
pub fn shape_of(k: usize) -> Shape
    ensures { (result ≡ shape_of k) × Sound result }
{
    let row = kind_row(k);
    Shape {
        fixed: row.fixed,
        unit: row.unit,
    }
}
