//! Positions of the Language Server Protocol: lines and columns in code units, and the offsets of bytes.
#![tactic(auto)]

mod columns;
pub mod laws;
mod position;
mod table;

pub use position::{Encoding, Position};
pub use table::LineTable;
