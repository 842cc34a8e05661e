// The name words of a file's vectors and features, in the file's order.
ghost use Rattle.std.specs.Prelude.{◌-◌, ◌*◌, ◌≤◌, length};
ghost use Rattle.names.specs.NameWords.{name_words};
ghost use Rattle.names.specs.Premises.{Readable};
ghost use Rattle.names.specs.Names.{first_item};
ghost use Rattle.names.specs.Area.{Collected};

use crate::walk::{first_item, start_of};
use iso8211::field::{Record, head_of, record_end};
use items::identity::word_for;
use words::put;

// Their words at the front of the area.
pub fn collect(s: &[u8], n: usize, update: bool, area: &mut [u8])
    requires { Readable update s.now n × (8 * (n - first_item update) ≤ length area.old) }
    ensures { Collected area.old (name_words update s.now n) (n - first_item update) area.new }
{
    let first = first_item(update);
    let mut at = start_of(s, n, first);
    for i in 0..n - first {
        let h = head_of(s, at);
        let r = Record {
            file: s,
            at,
            head: h,
        };
        let w = word_for(&r);
        put(area, i, w);
        at = record_end(s, at);
    }
}
