// A chart as a value, its held form and its limits: definitions and laws. The code that measures and
// writes it is in the crates above.
#![tactic(auto)]
