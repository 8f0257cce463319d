//! The parts of a call: files, sources, data, analyses, checks and runs, each with what it comes to, or its
//! refusal.
#![tactic(auto)]

mod analysis;
mod call;
mod file;
mod run;
mod source;
mod verification;

pub use analysis::analyse;
pub use call::{Arguments, Call, read_arguments, read_call};
pub use file::{most_bytes, read_file};
pub use run::{Limits, execute};
pub use source::{read_program, typed_program};
pub use verification::{read_certificate, verified};
