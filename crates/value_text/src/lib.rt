//! Values as words and cells, which the machine works on, and as text: arguments are read from data, and
//! values are printed.
#![tactic(auto)]

mod cells;
mod fault;
mod goal;
mod heap;
mod items;
pub mod laws;
mod printing;
mod read;
mod sign;
mod taking;
mod token;
mod word;

pub use fault::DataFault;
pub use heap::DataHeap;
pub use printing::{PrintFault, print};
pub use read::read_args;
pub use word::{Cell, Word};
