// The step through a list, entry by entry or part by part, whatever number of fields it stands in.
ghost use Rattle.items.specs.Premises.{Listed};
ghost use Rattle.items.specs.Cursors.{CursorIn, Settled, Stepped, PartStepped};

use crate::cursor::Cursor;
use crate::shape::shape_of;
use entries::entry_len;
use iso8211::field::Record;
use table::kind_of;

// The same place with bytes before it: where those of the cursor are used up, they are those of the
// next field of kind k, if there is one.
fn settled(r: &Record, k: usize, c: Cursor) -> Cursor
    requires { Listed r.now.file.now r.now.at r.now.head k × CursorIn r.now.file.now r.now.at k c }
    ensures { Settled r.now.file.now r.now.at k c result }
{
    let from = c.from;
    let to = c.to;
    if from < to {
        return c;
    }
    let count = r.head.count;
    for field in c.field..count {
        if kind_of(r.tag(field)) == k {
            let f = r.field(field);
            let start = f.start;
            return Cursor {
                field: field + 1,
                from: start,
                to: start + (f.length - 1),
            };
        }
    }
    Cursor {
        field: count,
        from: to,
        to,
    }
}

// The next entry of the list of kind k, if there is one: from where to where it stands in the file,
// and the cursor behind it.
pub fn next(r: &Record, k: usize, c: Cursor) -> Option<(usize, usize, Cursor)>
    requires { Listed r.now.file.now r.now.at r.now.head k × CursorIn r.now.file.now r.now.at k c }
    ensures { Stepped r.now.file.now r.now.at k c result }
{
    let d = settled(r, k, c);
    let from = d.from;
    let to = d.to;
    if to <= from {
        return None;
    }
    let end = from + entry_len(&r.file[from..to], shape_of(k));
    let behind = Cursor {
        field: d.field,
        from: end,
        to,
    };
    Some((from, end, behind))
}

// The next entries of the list of kind k that stand together, if there are any: from where to where
// they stand in the file, and the cursor behind them. A walk over entries of one length goes through
// them by itself, and looks for a field only once a part.
pub fn part(r: &Record, k: usize, c: Cursor) -> Option<(usize, usize, Cursor)>
    requires { Listed r.now.file.now r.now.at r.now.head k × CursorIn r.now.file.now r.now.at k c }
    ensures { PartStepped r.now.file.now r.now.at k c result }
{
    let d = settled(r, k, c);
    let from = d.from;
    let to = d.to;
    if to <= from {
        return None;
    }
    let behind = Cursor {
        field: d.field,
        from: to,
        to,
    };
    Some((from, to, behind))
}
