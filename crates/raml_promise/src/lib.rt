//! What a call promises: each command as a chain of steps from the words to an answer, and the law that
//! what is needed for an answer brings it.
#![tactic(auto)]

pub mod laws;
