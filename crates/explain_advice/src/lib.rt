//! Why functions have no bound, as an editor shows it: what `explain why` tells at its places, and the changes that give bounds.
#![tactic(auto)]

mod advice;
mod advised;
mod change;
mod difference;
mod given_up;
mod information;

pub use advice::add_advice;
pub use advised::Advised;
pub use given_up::add_given_up;
