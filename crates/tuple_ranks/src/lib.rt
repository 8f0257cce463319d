//! Where the tuples of one context stand among those of another, found by counting: tuples are seen
//! by the numbers of their indices, and no index is made.
#![tactic(auto)]

mod columns;
mod numbers;
mod ranks;
mod slots;
mod spots;

pub use spots::{Cut, Joined, cut_spots, half_spots, joined_spots, permuted_spots};
