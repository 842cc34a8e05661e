// What a modify edits and by which controls.
ghost use Rattle.std.specs.Prelude.{◌≤◌, ◌≡◌, length};
ghost use Rattle.changes.specs.Amend.{kinds_of};
ghost use Rattle.amend.specs.Pairs.{Paired, FourLists, PlanFor};

use crate::control::{controls_of, coordinates_of};
use items::identity::rcnm_of;
use lying::Lists;
use splice::control::Control;
use table::kinds;

// The kinds of the four lists of a vector or of a feature; the controls of the update's record; the
// kind that SGCC means.
#[derive(Clone, Copy)]
pub struct Plan {
    pub kinds: [usize; 4],
    pub first: Option<Control>,
    pub second: Option<Control>,
    pub coordinates: usize,
}

// The kinds by the class.
fn kinds_of(rcnm: u32) -> [usize; 4]
    ensures { (result ≡ kinds_of rcnm) × FourLists result }
{
    if rcnm == 100 {
        return [kinds::ATTF, kinds::NATF, kinds::FFPT, kinds::FSPT];
    }
    [kinds::ATTV, kinds::VRPT, kinds::SG2D, kinds::SG3D]
}

pub fn plan_of(cell: &Lists, update: &Lists, join: &mut [u8]) -> Plan
    requires { Paired cell.now.record.file.now cell.now.record.at update.now.record.file.now update.now.record.at
        × (5 ≤ length join.old) }
    ensures { PlanFor cell.now.record.file.now cell.now.record.at update.now.record.file.now update.now.record.at result }
{
    let rcnm = rcnm_of(&cell.record);
    let kinds = kinds_of(rcnm);
    let coordinates = coordinates_of(cell, update);
    let both = controls_of(update, rcnm, join);
    Plan {
        kinds,
        first: both.first,
        second: both.second,
        coordinates,
    }
}
