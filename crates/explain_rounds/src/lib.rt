//! How the calls of a group of functions go down, and which of them get the same part.
#![tactic(auto)]

mod calls;
mod class;
mod handed;
mod holds;
mod idle;
pub mod laws;
mod scope;
mod twice;

pub use calls::{GroupCall, group_calls};
pub use class::is_sized;
pub use handed::SamePart;
pub use idle::{Kind, is_in};
pub use twice::calls_with_same_part;
