// The controls of a record of an update, and which list each of them means.
ghost use Rattle.std.specs.Prelude.{◌≤◌, ◌≡◌, length, IfSome};
ghost use Rattle.items.specs.Identity.{rcnm_at};
ghost use Rattle.splice.specs.Given.{option_of, Given};
ghost use Rattle.changes.specs.Change.{control_at, amendment_at};
ghost use Rattle.amend.specs.Controls.{ControlSize, coordinates_by, chosen};
ghost use Rattle.amend.specs.Pairs.{BothRead};
ghost use Rattle.items.specs.Premises.{LaidOut};
ghost use Rattle.table.specs.Table.{VRPC, SGCC, FFPC, FSPC};

use lying::Lists;
use octets::number::{get1, get2};
use splice::control::Control;
use table::{kinds, offsets};

// The control of kind k of a record, whose bytes are copied to the front of an area and read there.
pub fn control_of(lists: &Lists, k: usize, join: &mut [u8]) -> Option<Control>
    requires { LaidOut lists.now.record.file.now lists.now.record.at × ControlSize lists.now.record.file.now lists.now.record.at k
        × (5 ≤ length join.old) }
    ensures { (option_of result ≡ control_at lists.now.record.file.now lists.now.record.at k) × IfSome result Given }
{
    if lists.put(k, join, 0) == 0 {
        return None;
    }
    Some(Control {
        instruction: get1(join, 0),
        index: get2(join, offsets::CONTROL_INDEX) as usize,
        count: get2(join, offsets::CONTROL_COUNT) as usize,
    })
}

// The control of VRPT or FFPT of an update's record of class `rcnm`.
fn first_of(update: &Lists, rcnm: u32, join: &mut [u8]) -> Option<Control>
    requires { LaidOut update.now.record.file.now update.now.record.at × (rcnm ≡ rcnm_at update.now.record.file.now update.now.record.at)
        × ControlSize update.now.record.file.now update.now.record.at FFPC
        × ControlSize update.now.record.file.now update.now.record.at VRPC × (5 ≤ length join.old) }
    ensures { (option_of result ≡ (amendment_at update.now.record.file.now update.now.record.at).first) × IfSome result Given }
{
    if rcnm == 100 {
        return control_of(update, kinds::FFPC, join);
    }
    control_of(update, kinds::VRPC, join)
}

// That of the coordinates or of FSPT.
fn second_of(update: &Lists, rcnm: u32, join: &mut [u8]) -> Option<Control>
    requires { LaidOut update.now.record.file.now update.now.record.at × (rcnm ≡ rcnm_at update.now.record.file.now update.now.record.at)
        × ControlSize update.now.record.file.now update.now.record.at FSPC
        × ControlSize update.now.record.file.now update.now.record.at SGCC × (5 ≤ length join.old) }
    ensures { (option_of result ≡ (amendment_at update.now.record.file.now update.now.record.at).second) × IfSome result Given }
{
    if rcnm == 100 {
        return control_of(update, kinds::FSPC, join);
    }
    control_of(update, kinds::SGCC, join)
}

// The two controls that an update's record may have.
#[derive(Drop)]
pub struct Controls {
    pub first: Option<Control>,
    pub second: Option<Control>,
}

pub fn controls_of(update: &Lists, rcnm: u32, join: &mut [u8]) -> Controls
    requires { LaidOut update.now.record.file.now update.now.record.at × (rcnm ≡ rcnm_at update.now.record.file.now update.now.record.at)
        × ControlSize update.now.record.file.now update.now.record.at VRPC × ControlSize update.now.record.file.now update.now.record.at SGCC
        × ControlSize update.now.record.file.now update.now.record.at FFPC
        × ControlSize update.now.record.file.now update.now.record.at FSPC × (5 ≤ length join.old) }
    ensures { BothRead update.now.record.file.now update.now.record.at result }
{
    let first = first_of(update, rcnm, join);
    let second = second_of(update, rcnm, join);
    Controls { first, second }
}

// Which list SGCC means: the one that is held, or, where neither is, the one that comes.
pub fn coordinates_of(cell: &Lists, update: &Lists) -> usize
    requires { LaidOut cell.now.record.file.now cell.now.record.at × LaidOut update.now.record.file.now update.now.record.at }
    ensures { result ≡ coordinates_by cell.now.record.file.now cell.now.record.at update.now.record.file.now update.now.record.at }
{
    if cell.total(kinds::SG2D) != 0 {
        return kinds::SG2D;
    }
    if cell.total(kinds::SG3D) != 0 {
        return kinds::SG3D;
    }
    if update.total(kinds::SG3D) == 0 {
        return kinds::SG2D;
    }
    kinds::SG3D
}

// The control of list k, of the two that a record may have.
pub fn control_for(
    k: usize,
    first: Option<Control>,
    second: Option<Control>,
    coordinates: usize,
) -> Option<Control>
    requires { IfSome first Given × IfSome second Given }
    ensures { (option_of result ≡ chosen k (option_of first) (option_of second) coordinates) × IfSome result Given }
{
    if k == kinds::VRPT || k == kinds::FFPT {
        first
    } else if k == kinds::FSPT || k == coordinates {
        second
    } else {
        None
    }
}
