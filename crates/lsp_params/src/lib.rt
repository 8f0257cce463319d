//! Params of the messages of a client: what they ask, and which documents they open and change.
#![tactic(auto)]

mod asking;
mod encoding;
mod json;
pub mod laws;
mod opening;

pub use asking::{Ask, NamesAsk, NamesSubject, NewName, Subject, ask_of, new_name_of, uri_of};
pub use encoding::agreed;
pub use opening::{Opening, changes_of, opening_of, versioned_of};
