//! Why functions have no bound, as far as it is found by trying.
#![tactic(auto)]

mod asked;
mod calls;
mod degree;
mod grounds;
mod kept;
mod note;
mod program;
mod progress;
mod reason;
mod rounds;
mod trying;
mod waits;

pub use note::Note;
pub use program::{Explanation, explain, reasons_of};
pub use progress::{Progress, Silent};
pub use reason::{Explained, Reason};
