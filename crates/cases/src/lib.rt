// More small files as bytes, computed: edits, two updates of one number, and Show. The files that they
// change are those of `witness`; the errors that document 01 has met are tried in a crate above. No
// code.
#![tactic(auto)]
