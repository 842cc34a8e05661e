// The owner's demand 2 as theorems over `judge_of` (crate `judging`), `admit_of` and `apply_of` (crate
// `loader`), and what demand 1 says of the output after a refusal: the contracts of the calls answer
// with these names, in the crates below and above, for C too. No code.
#![tactic(auto)]
