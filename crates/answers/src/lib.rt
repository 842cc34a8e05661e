// What the loader answers: document 01's codes and limits, each once; a refusal of a file, an answer of a
// call, and its 16 bytes; and the order of refusals, in which the first that finds something answers. It
// stands on `octets` alone; every crate that refuses takes its words from here.
#![tactic(auto)]

pub mod answer;
pub mod codes;
pub mod refusal;
pub mod sixteen;

pub use answer::{Answer, answered};
pub use refusal::Refusal;

// A refusal as the answer for its file; and a stage's, where nothing refused has neither file nor record.
pub use answer::{answer_of, filed, of_refusal};
pub use refusal::refuse;

// The answer into an area of 16 bytes; any other stays as it is.
pub use sixteen::put_answer;
