//! Indices, tuples of indices, and the base polynomials that they name.
#![tactic(auto)]

mod fault;
mod how_many;
mod index;
pub mod laws;
mod list;
mod products;
mod sizes;
mod tuple;

pub use fault::IndexFault;
pub use how_many::positions;
pub use index::Index;
pub use list::{indices, tuples_up_to};
pub use products::multiply;
pub use sizes::degrees;
pub use tuple::{Poly, Tuple};
