// The records in front of an update's result: record 0, DSID revised by that of the update, with DSSI, and
// DSPM. `fronts_of`, where they stand; `front_sizes`, how long they are; `put_front`, their bytes. It
// takes record 0 from `header` and the others from `fronts`.
#![tactic(auto)]

pub mod front;

// Where the records in front stand.
pub use front::fronts_of;

// How long they are in the result.
pub use front::front_sizes;

// Records 0 to 2 of the result, with these counts.
pub use front::put_front;
