// The names of a text.
use crate::span::Span;

/// One thing that is named, wherever its name stands.
#[derive(Debug, Drop)]
pub struct Named {
    /// Where it gets its name.
    pub binding: Span,
    /// Where else it is named, in the order of the text.
    pub uses: Vec<Span>,
}

/// A thing of the text that an outline shows, such as a function.
#[derive(Debug, Drop)]
pub struct Symbol {
    /// Its name, on one line.
    pub name: String,
    /// All that belongs to it.
    pub whole: Span,
    /// Where it gets its name, inside of the whole.
    pub binding: Span,
}

/// Why a thing does not get another name.
#[derive(Clone, Copy, Debug, PartialEq, Eq)]
pub enum Refusal {
    /// Nothing is named at the place.
    Nothing,
    /// The new name is no name of the language.
    NoName,
    /// The new name names something already where the thing is named, so that one would be taken for the other.
    InUse,
}

/// What comes of another name for a thing.
#[derive(Debug, Drop)]
pub enum Renaming {
    /// It is to stand in these parts of the text, of which no two meet.
    Parts(Vec<Span>),
    Refused(Refusal),
}
