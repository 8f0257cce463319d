//! Tests of decisions of declared bounds: the block that keeps one, and its bound. There is nothing else here:
//! so the crates below are proved once.
#![tactic(auto)]

#[cfg(test)]
mod kept;
