//! The lines on the error stream.
#![tactic(auto)]

mod bounds;
mod certificate;
mod places;
mod plain;
mod refusal;
mod source;
mod task;

pub use bounds::{declared_leaves_line, declared_too_large_line};
pub use certificate::{certificate_line, fails_line, json_line, not_refuted_line, shape_line};
pub use places::{
    check_line, least_line, point_line, powers_line, refute_line, rescale_line, row_line,
    scale_line, solve_line,
};
pub use plain::{
    Which, no_function_line, no_memory_line, too_long_line, unread_line, usage_line,
    write_failed_line,
};
pub use refusal::{data_line, other_source_line, source_line};
pub use source::SourceFault;
pub use task::{Analysed, too_large_line};
