//! Tables of prices: what bytes spell one, and programs in which prices are written out as ticks.
#![tactic(auto)]

mod construct;
mod fault;
mod functions;
pub mod laws;
mod line;
mod node;
mod nodes;
mod prices;
mod program;
mod table;

pub use construct::Construct;
pub use fault::{PriceFault, fault_line};
pub use prices::Prices;
pub use program::apply;
pub use table::read;
