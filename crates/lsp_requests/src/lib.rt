//! Messages of JSON-RPC 2.0, as the Language Server Protocol has them: what was read, and answers.
#![tactic(auto)]

mod answer;
mod code;
pub mod laws;
mod message;
mod reading;

pub use answer::{error_text, notification_text, result_text};
pub use code::{ErrorCode, Failure};
pub use message::{Id, Kind, Message};
pub use reading::read_message;
