//! The first fault of a source as an editor shows it: its place, its words and its code, and what to write instead.
#![tactic(auto)]

mod extent;
mod fault;
mod found;
mod guess;
mod insight;
pub mod laws;
mod listed;
mod repair;
mod site;

pub use extent::marked;
pub use fault::SourceFault;
pub use found::{Found, found_in};
pub use insight::fault_insight;
