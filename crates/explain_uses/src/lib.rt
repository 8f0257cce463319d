//! Values that are used twice, so that both uses have to be paid for.
#![tactic(auto)]

mod before;
mod emptied;
mod first;
mod later;
pub mod laws;
mod paid;
mod reach;
mod trying;
mod walk;

pub use emptied::emptied_text;
pub use later::LaterUse;
pub use paid::{PaidTwice, paid_twice};
pub use walk::later_uses;
