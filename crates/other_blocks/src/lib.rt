//! Other blocks of the tasks of a checked certificate: such a block is checked over the blocks before,
//! multiplied by a number, and tells bounds over the scale times that number.
#![tactic(auto)]

mod block;
mod check;
pub mod laws;
mod leaving;
mod place;
mod remembering;

pub use block::OtherBlock;
pub use check::{other, other_by};
pub use leaving::first_leaving;
pub use place::place_of;
pub use remembering::tables;
