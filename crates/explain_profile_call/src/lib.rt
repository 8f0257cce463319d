//! What a call of `explain profile` tells.
#![tactic(auto)]

mod call;

pub use call::tell_profile;
