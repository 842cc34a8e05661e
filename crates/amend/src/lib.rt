// What a modify makes of the lists of the object that it names: `plan_of`, which lists and by which
// controls; `put_kind`, each edited list put into a lent area, or that its edit breaks a rule. It
// takes where a record's lists lie from `lying`, the edit of a list from `splice` and that of
// attributes from `labelled`.
#![tactic(auto)]

pub mod control;
pub mod lists;
pub mod plan;

// The same by the control that the plan has for list k.
pub use lists::put_kind;
pub use plan::plan_of;
