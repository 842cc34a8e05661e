// The errors that document 01 has met, each tried by an update of `cases` on the small cell of `witness`. No
// code.
#![tactic(auto)]
