//! What an analysis tries, and in which order: the targets of cost-free signatures, and the tasks of
//! the groups of a program. In `specs/` what the next task is, and which task has to wait for a bound.
#![tactic(auto)]

mod cutting;
mod degree;
mod fill;
mod group;
mod holder;
mod join;
mod joined;
pub mod laws;
mod numbered;
mod order;
mod plan;
mod schedule;
mod target;
mod target_degrees;
mod task;
mod waiting;
mod walk;

pub use schedule::{Schedule, next};
pub use target::{Target, TargetList, targets};
pub use task::{Done, Meter, Task, TaskKind};
pub use waiting::blocked;
