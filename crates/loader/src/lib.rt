// The call Admit: lent areas, the order of refusals. Reading comes from `readonce`, the verdict from
// `judging`, the held form from `reissue`. It accepts all bytes and all areas; the work area is zero
// afterwards, and after a refusal the output is as it was. Apply is defined here (`apply_of`,
// `apply_area`) and done in the crates above, which have the calls for a host program in C too.
#![tactic(auto)]

pub mod admit;
