//! What a certificate that is held says of every run: potential is never less than cost.
#![tactic(auto)]

pub mod laws;
