// Reading an answer (document 01, "Reading an answer"): a solver's text to the network that it describes. What is read is defined in
// the crate answer.
#![tactic(auto)]

mod decode;
mod lines;
pub mod read;
mod values;
