//! Rules of the entering column.

ghost use Rattle.std.specs.Prelude.{◌≡◌};
ghost use Rattle.std.specs.Fn.{FnReturnsAt};
ghost use Rattle.simplex.specs.Choosing.{Chooses, IsChooser};

use frac128::Frac;
use std::marker::Model;

/// A rule that chooses the column which enters the basis: of the gains, one that is positive, or None
/// where none is.
#[derive(Drop)]
pub struct Chooser<F: Fn(&[Frac]) -> Option<usize>> {
    rule: F,
}

impl<F: Fn(&[Frac]) -> Option<usize>> Model for Chooser<F> {
    ghost Value = { F };

    ghost view = { λ chooser. chooser.rule };
}

impl<F: Fn(&[Frac]) -> Option<usize>> Chooser<F> {
    /// Takes a rule.
    pub fn new(rule: F) -> Chooser<F>
        requires callable { F.IsAlwaysCallable rule }
        requires chooses { Chooses (FnReturnsAt F.Fn rule) }
        ensures rule { result ≡ rule }
        ensures callable { F.IsAlwaysCallable result }
        ensures chooses { IsChooser F.Fn result }
    {
        Chooser { rule }
    }

    /// The rule's answer for these gains.
    pub(crate) fn choose(&self, gains: &[Frac]) -> Option<usize>
        requires callable { F.IsAlwaysCallable self.now }
        ensures { FnReturnsAt F.Fn self.now gains.now result }
    {
        (self.rule)(gains)
    }
}
