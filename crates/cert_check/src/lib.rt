//! The checker of certificates: it goes through the blocks in the order of the schedule, and tells the
//! first fault.
#![tactic(auto)]

mod amounts;
mod at;
mod block;
mod blocks;
mod bound;
mod checked;
mod checking;
mod course;
mod fault;
mod head;
mod judge;
pub mod laws;
mod limits;
mod planned;
mod reached;
mod refusal;
mod rules;
mod shape;
mod sizes;
mod solved;
mod target;

pub use checked::Checked;
pub use checking::{check, check_held, check_with};
pub use fault::CertFault;

// what another check of a block shares with this one
pub use at::{At, budget_of, members, result_of};
pub use block::same_task;
pub use bound::{params_of, poly_of, sigs_of};
pub use head::scale_for;
pub use planned::check_planned;
pub use sizes::remember_block;
pub use target::sig_of;

// what a course of the schedule shares with the check
pub use course::{done_as, remember};
pub use refusal::large_task;
