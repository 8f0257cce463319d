//! Stores to read files from and sinks to write to: those in memory, whose every answer is known,
//! and the real ones.
#![tactic(auto)]

mod dir_store;
mod mem_sink;
mod mem_store;
mod sink;
mod std_sink;
mod store;

pub use dir_store::{DirStore, read_up_to};
pub use mem_sink::MemSink;
pub use mem_store::MemStore;
pub use sink::{Sink, SinkFault, put_all};
pub use std_sink::StdSink;
pub use store::{Store, StoreFault};
