// An update as a value: its header and its records, which of them may follow a chart, and what they
// make of it. Definitions and laws alone.
#![tactic(auto)]
