// What checks find.
ghost use Rattle.std.specs.Prelude.{◌≡◌};
ghost use Rattle.explain_check.specs.Checks.{worse};

/// What a check of a file finds, or of several.
#[derive(Clone, Copy, Debug, PartialEq, Eq)]
pub enum Verdict {
    /// A typed program, and nothing else.
    Typed,
    /// A source that spells no typed program.
    Faulty,
    /// A file that can't be read, or is longer than a source may be.
    Unread,
}

impl Verdict {
    /// The worse of two: what is not read is worse than what is faulty.
    pub fn worse(self, other: Verdict) -> Verdict
        ensures { result ≡ worse self other }
    {
        match (self, other) {
            (Verdict::Unread, _) | (_, Verdict::Unread) => Verdict::Unread,
            (Verdict::Faulty, _) | (_, Verdict::Faulty) => Verdict::Faulty,
            (Verdict::Typed, Verdict::Typed) => Verdict::Typed,
        }
    }
}
