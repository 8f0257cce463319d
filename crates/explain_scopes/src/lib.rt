//! Names by their scopes: which binding each name of a source means, what an outline shows, and another name.
#![tactic(auto)]

pub mod laws;
mod lexed;
mod named;
mod occurrence;
mod outline;
mod program;
mod rename;
mod scope;
mod source;
mod walk;

pub use named::named_at;
pub use outline::symbols_of;
pub use rename::renamed_at;
