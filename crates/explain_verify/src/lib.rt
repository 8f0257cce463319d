//! The verification of a certificate for a source: whether it holds, and where it does not, for which function and meter
//! and at which place of the source.
#![tactic(auto)]

mod call;
mod failing;
mod fault;
mod limit;
mod message;
mod outline;
mod place;
mod scheduled;
mod verification;

pub use call::verify_certificate;
pub use verification::Verification;
