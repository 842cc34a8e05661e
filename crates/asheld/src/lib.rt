// Records whose bytes are those of the held form already, but for the leader's free bytes and the running
// number: each list in one field, in held order, both digit sizes the fewest. It promises to the crates above:
// `held_size`, whether a record is such, and how long it is then; `put_held`, its bytes, copied as they
// stand; `is_front`, whether its leader is that of the held form too, and `put_same`, its bytes then.
#![tactic(auto)]

pub mod front;
pub mod size;
pub mod write;

// Whether the leader at `at` is that of the held form, of a record of that size, as far as its digit sizes.
pub use front::is_front;

// How long the record at `at` is if its bytes are those of the held form, else 0.
pub use size::held_size;

// Such a record, from `place` on, with its running number.
pub use write::put_held;

// The same where the leader is that of the held form too.
pub use write::put_same;
