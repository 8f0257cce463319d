//! What a call answers: a report, or a refusal with the line that tells it; and how calls end.
#![tactic(auto)]

mod answer;
mod certificate;
mod fault;
mod line;
mod run;
mod status;

pub use answer::{Line, Refusal, Report};
pub use certificate::{check_refusal, json_refusal};
pub use fault::{
    bounds_refusal, data_refusal, declared_leaves, declared_too_large, parse_refusal,
    point_refusal, price_refusal, type_refusal,
};
pub use line::{course_refusal, overflow, powers_refusal, too_large};
pub use run::{full_report, stopped_report, value_report};
pub use status::{CertAnswer, OverflowAt, Status};
