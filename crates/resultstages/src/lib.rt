// The last stages of Apply: `merged`, the result woven of the words of both files, judged (codes 17 to 19),
// held to the limits and the room (20 and 21), and written. It takes the weaving from `merge`, the
// verdict from `result` and the held form from `renewal`.
#![tactic(auto)]

pub mod merged;
