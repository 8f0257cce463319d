//! The server of the Language Server Protocol: its life cycle, its open documents, and what it does with each message.
#![tactic(auto)]

mod answering;
mod document;
mod documents;
mod hearing;
pub mod laws;
mod life;
mod method;
mod sending;
mod server;

pub use life::{Flow, Life};
pub use server::Server;
