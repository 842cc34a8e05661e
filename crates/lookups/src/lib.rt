// The look-up of a name or a word among the sorted words of the work area: `lookup`, `index_of`,
// `has_word`; and `index_near`, `has_near`, which promise the same and try a guess first.
#![tactic(auto)]

pub mod lookup;
pub mod starts;

// The name that an entry of VRPT or FSPT starts with.
pub use lookup::name_in;

// Of the m words from word `from` on the index of the first that has this name.
pub use lookup::index_of;

// Whether w is one of the m words from word `from` on.
pub use lookup::has_word;

// The same as `index_of`, with two guesses before it halves.
pub use lookup::index_near;

// The same as `has_word`, with a guess and the word beside it before it halves.
pub use lookup::has_near;

// Where the words of each class may begin, for a guess.
pub use starts::{Starts, start_for, starts_of};
