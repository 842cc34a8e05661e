// Whether a record of an update may do what it says to the object that it names: `lists_allowed` for a
// modify, `insert_allowed`, `delete_allowed` (code 16), and `identity_same` (code 15). It takes each
// edited list from `amend`, what a record says from `items`.
#![tactic(auto)]

pub mod brought;
pub mod identity;
pub mod rule;

// Whether a record that inserts brings no control and no removal.
pub use brought::insert_allowed;

// Whether a record that deletes brings neither control nor list.
pub use brought::delete_allowed;

// Whether a record of an update has the identity of the object of its class that it names.
pub use identity::identity_same;

// Whether the update's record at `by` may edit the lists of the cell's record at `at`.
pub use rule::lists_allowed;
