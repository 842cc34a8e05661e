// The items of a file: of a record that is laid out, its lists, whatever number of fields they stand
// in, entry by entry, and what it is: name, version, and of a feature primitive, class and FOID. It
// promises the crates above the one step through a list, its count, and these numbers; it takes
// fields from `iso8211`, entries from `entries`, kinds from `table` and laid-out records from
// `layout`.
#![tactic(auto)]

pub mod count;
pub mod cursor;
pub mod identity;
pub mod shape;
pub mod step;
pub mod word;

pub use cursor::Cursor;

// Before the first entry of any list.
pub use cursor::begin;

// RCNM: which kind of vector, or a feature.
pub use identity::rcnm_of;

// RCID.
pub use identity::rcid_of;

// PRIM of a feature.
pub use identity::prim_of;

// OBJL of a feature.
pub use identity::objl_of;

// FOID of a feature, its eight bytes as a number.
pub use identity::foid_of;

// RVER, which stands at another offset in a feature.
pub use identity::version_of;

// RUIN: 1 insert, 2 delete, 3 modify.
pub use identity::ruin_of;

// The place of a class in held order.
pub use identity::rank_of;

// The name as a number.
pub use identity::name_of;

// The name and the record's place in one word.
pub use identity::word_for;

// How an entry of a list of kind k looks.
pub use shape::shape_of;

// The next entry of the list of kind k.
pub use step::next;

// The next entries of the list of kind k that stand together.
pub use step::part;
