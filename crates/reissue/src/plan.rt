// How long the held form is, and whether it keeps its limits: decided before a byte is written.
ghost use Rattle.std.specs.Prelude.{◌+◌, ◌≡◌};
ghost use Rattle.words.specs.Words.{words_in};
ghost use Rattle.reissue.specs.Plan.{chart_from, Writing, within_limits, Planned, SameTold};

use answers::codes::{LONGEST_RECORD, MOST_BYTES, MOST_RECORDS};
use fronts::front::{dsid_total, dspm_total};
use iso8211::field::record_end;
use writing::all::measure;

// Whether the held form keeps its limits, and how many bytes it has. Not an Option: `total` is its length
// whether it keeps them or not (`total_is` of `Planned`).
#[derive(Drop)]
pub struct Plan {
    pub fits: bool,
    pub total: usize,
}

// A plan, and whether the records of the items are known to be the held form's, but for their running
// numbers.
#[derive(Drop)]
pub struct Scheme {
    pub plan: Plan,
    pub same: bool,
}

// Whether n records, the longest of `most` bytes, `total` bytes in all, keep the limits.
pub fn within_limits(n: usize, most: u32, total: usize) -> bool
    ensures { result ≡ within_limits n most total }
{
    n <= MOST_RECORDS && most <= LONGEST_RECORD && total <= MOST_BYTES
}

// The plan of a cell of m items.
pub fn planned(s: &[u8], m: usize, work: &[u8]) -> Scheme
    requires { Writing s.now m work.now }
    ensures { Planned (chart_from s.now (words_in work.now 0 m)) result.plan × SameTold s.now m work.now result.same }
{
    let first = record_end(s, 0);
    let second = record_end(s, first);
    let dsid = dsid_total(s, first);
    let dspm = dspm_total(s, second);
    let found = measure(s, m, work);
    let sizes = found.sizes;
    let most = dsid.max(dspm).max(sizes.most);
    let total = 1561 + dsid as usize + dspm as usize + sizes.sum;
    let plan = Plan {
        fits: within_limits(3 + m, most, total),
        total,
    };
    Scheme {
        plan,
        same: found.same,
    }
}
