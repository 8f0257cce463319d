//! The inference of bounds: the course of the schedule, from task to task.
//!
//! Each task is tried in turn: its system is made and solved in whole numbers, the earlier blocks of its
//! meter are raised, and its block goes behind them. The certificate is checked at the end.
#![tactic(auto)]

mod blocks;
mod body;
mod claims;
mod cursor;
mod ending;
mod factor;
mod fault;
mod fitting;
mod inference;
mod kinds;
mod large;
pub mod laws;
mod leaves;
mod line;
mod progress;
mod raising;
mod refusal;
mod refuting;
mod run;
mod scales;
mod sigs;
mod sizes;
mod solved;
mod solver;
mod step;
mod system;
mod times;
mod vector;
mod verification;
mod verified;

pub use cursor::Inference;
pub use factor::Factor;
pub use fault::RaiseFault;
pub use inference::{infer, infer_within};
pub use leaves::LeavesAt;
pub use line::Line;
pub use progress::Progress;
pub use raising::{raise, raise_blocks};
pub use refusal::{InferFault, VerifyFault};
pub use vector::listed;
pub use verification::verify;
pub use verified::Verified;
