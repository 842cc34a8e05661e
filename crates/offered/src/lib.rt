// Demand 3 on small files: the updates of `witness` offered to two units in the wrong order, repeated, with
// a gap, with areas too short; what the units then hold, to the byte; and that the premises of the
// theorems of `unit` can be met. Beside it the small cells with one byte changed, offered to Judge. No code.
#![tactic(auto)]
