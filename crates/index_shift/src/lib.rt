//! Maps on the indices of contexts, which move annotations where a variable is taken apart, leaves or
//! is shared.
#![tactic(auto)]

mod carry;
mod context;
mod entry;
mod fault;
pub mod laws;
mod lengths;
mod lift;
mod local;
mod maps;
mod parts;
mod tables;

pub use entry::Entry;
pub use fault::MapFault;
pub use local::Local;
pub use maps::{drop_var, empty_part, share_map, shift_list, shift_option, shift_tree, split_pair};
