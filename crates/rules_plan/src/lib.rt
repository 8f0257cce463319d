//! Plans of normal forms: each rule at the positions of its contexts. A form is planned at the greatest
//! budget, and once for all budgets where a `let` binds it; each map that is not one of `index_shift` is
//! made once, at the greatest budget.
#![tactic(auto)]

mod body;
mod budgets;
mod called;
mod change;
mod constructed;
mod context;
mod entries;
mod env;
mod fault;
mod flat;
mod free;
mod kept;
pub mod laws;
mod lets;
mod operands;
mod plan;
mod small;
mod tuples;
mod weight;
mod within;

pub use body::{Body, FunctionPlan, GroupPlans, group_plans, next_plans};
pub use fault::PlanFault;
pub use kept::KeptPlans;
