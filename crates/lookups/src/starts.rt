// Where the words of each class may begin: vectors stand by class, so a name is looked for from there
// on. It promises nothing, since a guess made by it is tested.
ghost use Rattle.std.specs.Prelude.{◌*◌, ◌≤◌, length};
ghost use Rattle.words.specs.Words.{words_in};
ghost use Rattle.words.specs.Order.{Sorted};

use items::word;
use words::find;

// The indexes of the first connected node and of the first edge; isolated nodes begin at 0.
#[derive(Clone, Copy)]
pub struct Starts {
    pub connected: usize,
    pub edges: usize,
}

// Those of m words from the front of the area on.
pub fn starts_of(area: &[u8], m: usize) -> Starts
    requires { (8 * m ≤ length area.now) × Sorted (words_in area.now 0 m) }
{
    Starts {
        connected: find(area, 0, m, word::RANK_WEIGHT),
        edges: find(area, 0, m, 2 * word::RANK_WEIGHT),
    }
}

// Where the words of this name's class may begin.
pub fn start_for(starts: Starts, name: u64) -> usize {
    if name < word::CLASS_WEIGHT {
        return 0;
    }
    if name < 2 * word::CLASS_WEIGHT {
        return starts.connected;
    }
    starts.edges
}
