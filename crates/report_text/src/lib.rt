//! The texts of reports: types of functions, bounds of an analysis, meters and values of a run, and the
//! program of a trial.
#![tactic(auto)]

mod bounds;
mod claims;
pub mod laws;
mod names;
mod run;
mod trial;
mod types;

pub use bounds::push_run_bounds;
pub use claims::{push_bound_line, push_calls_line, push_no_bound_line};
pub use names::{meter_name, name_at};
pub use run::{full_lines, stopped_lines, value_lines};
pub use trial::{functions_line, trial_data, trial_function, trial_source};
pub use types::type_lines;
