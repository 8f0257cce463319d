//! Calls of `explain budget`: which declared bounds a program keeps, in words or as JSON.
#![tactic(auto)]

mod asked;
mod at;
mod call;
mod end;
mod judging;
mod telling;

pub use call::tell_budget;
pub use end::BudgetEnd;
