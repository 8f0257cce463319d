// How the coefficients of two polynomials stand to each other.
ghost use Rattle.std.specs.Prelude.{◌≡◌};
ghost use Rattle.bound_compare.specs.Compare.{word_of};

/// How the coefficients of a polynomial stand to those of another one.
#[derive(Clone, Copy, Debug, PartialEq, Eq)]
pub enum Relation {
    /// All are equal.
    Equal,
    /// All are at most those of the other, and not all are equal.
    Below,
    /// All are at least those of the other, and not all are equal.
    Above,
    /// Anything else.
    Mixed,
}

impl Relation {
    /// Its word, as reports print it.
    pub fn word(self) -> &'static str
        ensures { result.now ≡ word_of self }
    {
        match self {
            Relation::Equal => "equal",
            Relation::Below => "below",
            Relation::Above => "above",
            Relation::Mixed => "mixed",
        }
    }
}
