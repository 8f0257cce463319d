//! Laws alone: what the system of a tried task asks for is there, and the systems of a program's tasks are what
//! courses ask for. In `specs/` the analysis of a program, as courses go through it.
#![tactic(auto)]

pub mod laws;
