// The topology of a chart as a value, codes 17 to 19 without a file, and that a cell and its chart get
// one verdict: no code.
#![tactic(auto)]
