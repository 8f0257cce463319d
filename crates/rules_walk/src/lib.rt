//! The walk through a plan of the annotation rules, for any kind of number: its conditions are heard
//! form by form, and none of them is kept. What walks take from the blocks before a task (which cost-free
//! signatures a call may take multiples of, and which signatures pay) is kept through a whole certificate,
//! and grows block by block.
#![tactic(auto)]

mod amount;
mod ask;
mod calls;
mod capped;
mod earlier;
mod entries;
mod growing;
mod hint;
mod judge;
mod kind;
mod known;
pub mod laws;
mod place;
mod plan;
mod raising;
mod shape;
mod signatures;
mod tables;
mod walk;

pub use amount::Amount;
pub use ask::{Ask, asked, unknowns};
pub use capped::capped_product;
pub use earlier::Earlier;
pub use growing::growth;
pub use hint::Hint;
pub use judge::Judge;
pub use kind::Kind;
pub use known::{Known, Sides, Signature, Signed};
pub use plan::{Called, Mode, Part, Parts, Plan, Step, Usage};
pub use shape::fits;
pub use signatures::numbers;
pub use walk::walk_body;
