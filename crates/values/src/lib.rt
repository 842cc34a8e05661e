// Document 01's rules under "Values" for VRID and FRID (`vrid_fault`, `frid_fault`), each on one lent field
// without its closing 1E, whose subfields were found to fill it, and the rule of one number. A `Fault` names
// the first byte of the first subfield that is wrong. The header's fields have crates of their own. Below it
// stands `octets`.
#![tactic(auto)]

pub mod class;
pub mod fault;
pub mod frid;
pub mod rule;
pub mod vrid;

pub use class::{is_collection, is_geo, is_meta};

// The byte at which the first wrong subfield begins.
pub use fault::Fault;

// Ok where the rule of the subfield that begins at `at` holds, else the fault there.
pub use fault::holds;

// The fault of a FRID.
pub use frid::frid_fault;

// Whether v is from `low` to `high`.
pub use rule::within;

// Whether the four bytes from `at` on are an RCID.
pub use rule::rcid_good;

// The EXPP and the PROF of a cell, or of an update.
pub use rule::profile;

// Whether the bytes from `from` up to `to` are one to `width` digits that make a number from
// `least` to `most`.
pub use rule::digits_within;

// The fault of a VRID.
pub use vrid::vrid_fault;
