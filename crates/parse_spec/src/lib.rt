//! Grammars as data: what their rules derive, with exact heights, and the place and kind of the first
//! token that cannot stand.
//!
//! `specs/` has the definitions. `proofs/` shows, once for every grammar that can be read with one token
//! in view, that a reader with one token in view answers exactly the tree or exactly that fault.
#![tactic(auto)]

/// Why the first token that cannot stand cannot.
#[derive(Clone, Copy, PartialEq, Eq, Debug)]
pub enum Kind {
    /// No text begins with the tokens up to it.
    Syntax,
    /// Some text begins so, but each is higher than the limit.
    TooDeep,
    /// Some text within the height begins so, but with more items in a list than its limit.
    TooMany,
}
