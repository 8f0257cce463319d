//! Checks of data: whether it spells the arguments of a function, and where it does not, its first fault in words.
#![tactic(auto)]

mod call;
mod data;
mod finding;
mod here;
mod message;
mod need;
mod report;
mod token;

pub use call::{check_call, function_named, push_no_function};
pub use data::{MOST_BYTES, check_data};
pub use finding::Finding;
