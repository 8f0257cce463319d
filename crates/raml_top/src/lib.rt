//! The top call: what the words ask for is read, analysed or run, and reported.
#![tactic(auto)]

mod commands;
mod comparison;
mod contract;
mod prices;
mod requests;
mod runs;
mod top;
mod trial;

pub use refusal_text::{SourceFault, Which};
pub use refusals::{CertAnswer, OverflowAt, Status};
pub use top::raml;
