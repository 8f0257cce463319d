// What a comparison tells of a function and a meter.
ghost use Rattle.std.specs.Prelude.{◌≡◌};
ghost use Rattle.bound_compare.specs.Text.{compared_word};

use crate::relation::Relation;

/// What a comparison of two programs tells of a function and a meter.
#[derive(Clone, Copy, Debug, PartialEq, Eq)]
pub enum Compared {
    /// The other program has no such function.
    Absent,
    /// Not both have a bound.
    NoBound,
    /// Both have one, and they stand so.
    Bounds(Relation),
}

impl Compared {
    /// Its words, as reports print them.
    pub fn word(self) -> &'static str
        ensures { result.now ≡ compared_word self }
    {
        match self {
            Compared::Absent => "absent",
            Compared::NoBound => "no bound",
            Compared::Bounds(relation) => relation.word(),
        }
    }
}
