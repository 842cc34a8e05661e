// An update read in one pass.
ghost use Rattle.std.specs.Prelude.{◌*◌, ◌≤◌, ◌≡◌, length, take};
ghost use Rattle.bothonce.specs.Both.{UpdateTold, PlacedTold};

use names::twice::twice;
use reader::front::started;
use readonce::pass::file_once;
use words::sort;

// How many records an update has without any of the codes 1, 2 and 4 to 7, the words of its records
// by name ascending at the front of the area; 0 where that isn't known.
fn update_once(update: &[u8], area: &mut [u8]) -> usize
    ensures { UpdateTold update.now area.new result }
{
    let Ok(at) = started(update, 2) else {
        return 0;
    };
    let passed = file_once(update, at, true, area);
    let m = passed.count;
    if m == 0 {
        return 0;
    }
    if area.len() < 8 * m {
        return 0;
    }
    sort(area, 0, m - 2);
    if twice(update, m, true, area).is_some() {
        return 0;
    }
    m
}

// The same, its words from word i of the work area on; those before them stay.
pub fn update_from(update: &[u8], work: &mut [u8], i: usize) -> usize
    requires { 8 * i ≤ length work.old }
    ensures placed_told { PlacedTold update.now i work.new result }
    ensures work_unchanged { take (8 * i) work.new ≡ take (8 * i) work.old }
{
    let from = 8 * i;
    update_once(update, &mut work[from..])
}
