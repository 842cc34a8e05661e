// A vector or a feature as a value, and the fields that the held form has for it: definitions and
// laws. The code that measures and writes its record is in the crates above.
#![tactic(auto)]
