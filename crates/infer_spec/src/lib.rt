//! The course of an analysis: from task to task by the schedule, with what solving each task's system
//! comes to. In `specs/` the definitions, and in `proofs/` that a course's certificate is valid and least,
//! and that there is one.
#![tactic(auto)]

pub mod laws;
