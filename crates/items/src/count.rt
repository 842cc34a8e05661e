// How many entries a list has.
ghost use Rattle.std.specs.Prelude.{◌≤◌, ◌<◌, ◌≡◌, length};
ghost use Rattle.iso8211.specs.Field.{count_at};
ghost use Rattle.entries.specs.Entries.{entries_of};
ghost use Rattle.layout.specs.Layout.{shape_of};
ghost use Rattle.items.specs.Premises.{Listed};
ghost use Rattle.items.specs.Lists.{part_at, entries_at};

use crate::shape::shape_of;
use entries::extent_of;
use iso8211::field::Record;
use table::kind_of;

// How many entries field j brings to the list of kind k. Those without a text are all of one length,
// so that none need be looked at.
fn part_count(r: &Record, k: usize, j: usize) -> usize
    requires { Listed r.now.file.now r.now.at r.now.head k × (j < count_at r.now.file.now r.now.at) }
    ensures { result ≡ length (entries_of (shape_of k) (part_at r.now.file.now r.now.at k j)) }
{
    if kind_of(r.tag(j)) == k {
        let f = r.field(j);
        let size = f.length - 1;
        let shape = shape_of(k);
        let fixed = shape.fixed;
        let unit = shape.unit;
        if unit == 0 {
            return size / fixed;
        }
        let from = f.start;
        let to = from + size;
        let all = extent_of(&r.file[from..to], shape);
        return all.count;
    }
    0
}

// How many entries the list of kind k has.
pub fn count(r: &Record, k: usize) -> usize
    requires { Listed r.now.file.now r.now.at r.now.head k }
    ensures { (result ≡ length (entries_at r.now.file.now r.now.at k)) × (result ≤ length r.now.file.now) }
{
    let fields = r.head.count;
    let mut n: usize = 0;
    for j in 0..fields {
        n += part_count(r, k, j);
    }
    n
}
