//! Systems solved in whole numbers, with what proves each answer checked.
#![tactic(auto)]

mod answer;
mod checked;
mod fault;
mod named;
mod rules;
mod solving;
mod wholes;

pub use answer::{Answer, Within};
pub use fault::AnswerFault;
pub use named::{answer_by_greatest, answer_by_least};
pub use rules::{greatest_column, least_column};
pub use solving::{answer_alone, whole_answer, whole_answer_within};
