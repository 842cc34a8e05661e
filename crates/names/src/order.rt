// The name words of a file's vectors and features in held order.
ghost use Rattle.std.specs.Prelude.{◌-◌, ◌*◌, ◌≤◌, length};
ghost use Rattle.words.specs.Order.{sorted};
ghost use Rattle.names.specs.NameWords.{name_words};
ghost use Rattle.names.specs.Premises.{Readable};
ghost use Rattle.names.specs.Names.{first_item};
ghost use Rattle.names.specs.Area.{Collected};

use crate::collect::collect;
use crate::walk::first_item;
use words::sort;

// Their words at the front of the area: "vectors by class 110, 120, 130, then features; RCID
// ascending".
pub fn order(s: &[u8], n: usize, update: bool, area: &mut [u8])
    requires { Readable update s.now n × (8 * (n - first_item update) ≤ length area.old) }
    ensures { Collected area.old (sorted (name_words update s.now n)) (n - first_item update) area.new }
{
    collect(s, n, update, area);
    sort(area, 0, n - first_item(update));
}
