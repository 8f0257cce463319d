//! Files that are left, each whole or not at all: shelves in memory, whose every answer is known, and the real files.
#![tactic(auto)]

mod dir_shelf;
mod mem_shelf;
mod shelf;

pub use dir_shelf::DirShelf;
pub use mem_shelf::MemShelf;
pub use shelf::{Shelf, ShelfFault};
