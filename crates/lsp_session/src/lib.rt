//! A session with an editor: messages are read from one stream, and what a server sends for them is written to another,
//! until the editor ends it.
#![tactic(auto)]

mod end;
mod heard;
mod session;

pub use end::SessionEnd;
pub use heard::Heard;
pub use session::serve;
