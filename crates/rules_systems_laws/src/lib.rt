//! Laws alone: the system of a task is solved by exactly the signatures and hints that hold. Each solution stands for
//! such ones, with its weighted sum, and all that hold come from a solution. And the next task of a schedule has what
//! its system asks for.
#![tactic(auto)]

pub mod laws;
