// Document 01's rule of record 0: `described` says which kinds of fields a file declares, each as the table
// has it, or that the rule is broken. It takes records and fields from `iso8211`, and each field against
// the table from `declarations`.
#![tactic(auto)]

ghost use Rattle.std.specs.Prelude.{◌≡◌, ◌-◌, length, IfSome};
ghost use Rattle.table.specs.Table.{kind_count};
ghost use Rattle.iso8211.specs.Field.{count_at};
ghost use Rattle.iso8211.specs.Premises.{HeadOf, RecordIn};
ghost use Rattle.declarations.specs.Described.{described_from, described_of, none};
ghost use Rattle.declarations.specs.Premises.{marks_of};

use declarations::field::describes_at;
use iso8211::field::{Head, Record, head_of};
use table::{kind_of, kinds, tags};

// The fields behind 0000 and 0001: tags of the table, each at most once and as the table has it.
fn rest(s: &[u8], head: Head) -> Option<[u8; kinds::COUNT]>
    requires { RecordIn s.now 0 × HeadOf s.now 0 head }
    ensures { (marks_of result ≡ described_from (count_at s.now 0 - 2) s.now 2 none) × IfSome result (λ marks. length marks ≡ kind_count) }
{
    let record = Record {
        file: s,
        at: 0,
        head,
    };
    let mut marks = [0u8; kinds::COUNT];
    marks[kinds::FIRST] = 1;
    for j in 2..head.count {
        let next = record.field(j);
        let k = kind_of(next.tag);
        if kinds::FIRST <= k {
            return None;
        }
        if marks[k] != 0 {
            return None;
        }
        if !describes_at(s, next, k) {
            return None;
        }
        marks[k] = 1;
    }
    Some(marks)
}

// The kinds that record 0 declares, by their number in the table: 1 where one is. None where it breaks
// its rule.
pub fn described(s: &[u8]) -> Option<[u8; kinds::COUNT]>
    requires { RecordIn s.now 0 }
    ensures { (marks_of result ≡ described_of s.now) × IfSome result (λ marks. length marks ≡ kind_count) }
{
    let head = head_of(s, 0);
    let record = Record {
        file: s,
        at: 0,
        head,
    };
    if head.count < 2 {
        return None;
    }
    let zero = record.field(0);
    if zero.tag != tags::ZERO {
        return None;
    }
    let one = record.field(1);
    if one.tag != tags::FIRST {
        return None;
    }
    if !describes_at(s, one, kinds::FIRST) {
        return None;
    }
    rest(s, head)
}
