// Document 01's Pointer of one item, code 18: whether every name that it points to is held by a
// record, and every LNAM is the FOID of a feature. It takes the lists from `items` and the look-up
// among the words of the work area from `lookups`.
#![tactic(auto)]

ghost use Rattle.std.specs.Prelude.{◌+◌, ◌-◌, ◌≤◌, ◌≡◌};
ghost use Rattle.table.specs.Table.{row_of, FFPT};
ghost use Rattle.words.specs.Words.{words_in};
ghost use Rattle.items.specs.Lists.{entries_at};
ghost use Rattle.items.specs.Item.{item_at};
ghost use Rattle.lookups.specs.LookupWords.{index_of};
ghost use Rattle.pointer.specs.Pointer.{names_code, lnams_code, pointer_code};
ghost use Rattle.pointer.specs.Premises.{held_foid};
ghost use Rattle.items.specs.Premises.{LaidOut, Listed, Identified};
ghost use Rattle.names.specs.Premises.{Noted};

use answers::codes::POINTER;
use iso8211::field::Record;
use items::cursor::begin;
use items::identity::rcnm_of;
use items::step::next;
use lookups::lookup::{has_word, index_of, name_in};
use octets::number::get8;
use table::kinds;

// Whether every name in the list of kind k is one of the m items'.
pub fn names_code(r: &Record, k: usize, work: &[u8], m: usize, v: usize) -> u32
    requires { Listed r.now.file.now r.now.at r.now.head k × (5 ≤ (row_of k).fixed) × Noted work.now m v }
    ensures { result ≡ names_code (index_of (words_in work.now 0 m)) (entries_at r.now.file.now r.now.at k) }
{
    let mut c = begin();
    while let Some((from, to, after)) = next(r, k, c) {
        let Some(_place) = index_of(work, 0, m, name_in(&r.file[from..to])) else {
            return POINTER;
        };
        c = after;
    }
    0
}

// Whether every LNAM of a feature is a feature's FOID.
pub fn lnams_code(r: &Record, work: &[u8], m: usize, v: usize) -> u32
    requires { Listed r.now.file.now r.now.at r.now.head FFPT × Noted work.now m v }
    ensures { result ≡ lnams_code (held_foid (words_in work.now (m + v) (m - v))) (entries_at r.now.file.now r.now.at FFPT) }
{
    let mut c = begin();
    while let Some((from, to, after)) = next(r, kinds::FFPT, c) {
        if !has_word(work, m + v, m - v, get8(&r.file[from..to], 0)) {
            return POINTER;
        }
        c = after;
    }
    0
}

// The code of the item at `at`, by the words and notes of m items, of which v are vectors.
pub fn pointer_code(r: &Record, work: &[u8], m: usize, v: usize) -> u32
    requires { LaidOut r.now.file.now r.now.at × Identified r.now.file.now r.now.at × Noted work.now m v }
    ensures { result ≡ pointer_code (index_of (words_in work.now 0 m)) (held_foid (words_in work.now (m + v) (m - v))) (item_at r.now.file.now r.now.at) }
{
    if rcnm_of(r) != 100 {
        return names_code(r, kinds::VRPT, work, m, v);
    }
    let related = lnams_code(r, work, m, v);
    if related != 0 {
        return related;
    }
    names_code(r, kinds::FSPT, work, m, v)
}
