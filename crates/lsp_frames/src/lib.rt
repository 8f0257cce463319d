//! Messages of the base protocol of the Language Server Protocol, read from a stream of bytes in any
//! pieces, and written.
#![tactic(auto)]

mod blanks;
mod field;
mod find;
mod head;
pub mod laws;
mod messages;
mod reader;
mod seen;
mod writer;

pub use field::FrameFault;
pub use messages::{Messages, read_pieces};
pub use reader::FrameReader;
pub use seen::Reading;
pub use writer::push_frame;
