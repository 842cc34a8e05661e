// Small files as bytes, and what `judge_of` (crate `judging`), `admit_of` and `apply_of` (crate `loader`)
// say of them, computed: the contracts of the calls answer with these names, in the crates below and
// above, for C too. No code.
#![tactic(auto)]
