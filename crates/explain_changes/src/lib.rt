//! Mechanical changes of a program that keep its meaning, each in files of its own: *rebuild*, where a variable's value is
//! built again from its parts.
#![tactic(auto)]

mod built;
mod compare;
mod edits;
pub mod kind;
pub mod laws;
pub mod scope;
mod site;
mod uses;

pub use built::Built;
pub use compare::is_changed;
pub use edits::changed_text;
pub use site::Site;
pub use uses::sites;
