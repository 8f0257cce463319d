//! The words of a call of `explain`, and what they ask for.
#![tactic(auto)]

mod given;
pub mod laws;
mod mistake;
mod number;
mod request;
mod within;

pub use request::bounds::BoundsWords;
pub use request::lsp::LspWords;
pub use request::plot::{Arguments, PlotWords};
pub use request::profile::ProfileWords;
pub use request::why::{WhyWords, Written};
pub use request::{Request, WordsFault, read_words};
pub use within::{Meter, Within};
