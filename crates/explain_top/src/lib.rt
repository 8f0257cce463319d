//! What the program `explain` does: what the words of a call ask for, on a store, a shelf and two sinks.
#![tactic(auto)]

mod asked;
mod draft;
mod editor;
mod plot;
mod profile;
mod status;
mod top;
mod why;

pub use asked::answer;
pub use status::Status;
pub use top::explain;
