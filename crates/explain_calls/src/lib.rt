//! Calls of `explain` that analyse a program: what they tell, and how they end.
#![tactic(auto)]

mod analysed;
mod call;
mod draft;
mod end;
mod fitting;
mod parts;

pub use analysed::{is_unanalysed, push_note, push_notes, refusal_line};
pub use call::tell_bounds;
pub use draft::{Draft, draft_bounds};
pub use end::End;
pub use fitting::meter_of;
pub use parts::push_shown;
