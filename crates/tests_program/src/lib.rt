//! Tests of statuses, of whole calls over files and streams in memory that fail, and of lines that few calls write.
//! They stand in a crate of their own, so that the crate that they test is proved once.
#![tactic(auto)]

#[cfg(test)]
mod calls;
#[cfg(test)]
mod failing;
#[cfg(test)]
mod lines;
#[cfg(test)]
mod outcome;
#[cfg(test)]
mod streams;
