// The owner's demand 3 as theorems: a unit and what it shows after any offers. A unit is made by
// `admit_of` and `apply_of` (crate `loader`), the names with which the contracts of Admit and Apply
// answer, also as they are offered to C in a crate above; what it comes to is told over demand 2
// (crate `demands`). No code.
#![tactic(auto)]
