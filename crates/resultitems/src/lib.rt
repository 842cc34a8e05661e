// One item of an update's result: the cell's record, the update's, or one built of both in a lent area
// (`edited`); what is seen of it, its note among it (`seen_of`), and its code 17 to 19 (`code_of`). It
// takes the changed record from `rebuild` and the rules from `topology`.
#![tactic(auto)]

pub mod item;

// The record of an item that the update modifies, built in `room`: where it stands.
pub use item::edited;

// The note of an item of the result, and whether it is known to have no fault.
pub use item::seen_of;

// The code of an item, by the words and notes of all m, of which v are vectors.
pub use item::code_of;
