// From two files that are readable and follow each other to the answer: what the code of the result
// asks is so of them.
#![tactic(auto)]
