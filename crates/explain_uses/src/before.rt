// What happens before a place is reached.
ghost use Rattle.std.specs.Prelude.{◌≡◌, ◌∷◌};
ghost use Rattle.raml_syntax.specs.Read.{term_of};
ghost use Rattle.explain_uses.specs.Before as b;
ghost use Rattle.explain_uses.specs.Read.{before_of, byte_of};

use crate::first::{either, first_use, unless_named};
use raml_syntax::{Expr, Name, Pos};

/// What happens before a place of an expression is reached, the newest outermost.
#[derive(Clone, Copy)]
pub enum Before<'s, 'a> {
    Nothing,
    /// A name is bound.
    Named {
        name: &'a Name,
        earlier: &'s Before<'s, 'a>,
    },
    /// An expression is evaluated.
    Passed {
        e: &'a Expr,
        earlier: &'s Before<'s, 'a>,
    },
}

impl<'s, 'a> Before<'s, 'a> {
    /// The first use of the variable of this name before the place is reached.
    pub fn first_use(&self, variable: &str) -> Option<Pos>
        ensures { byte_of result ≡ b.first_before variable.now (before_of self.now) }
    {
        match self {
            Before::Nothing => None,
            Before::Named { name, earlier } => {
                unless_named(variable, name.text(), earlier.first_use(variable))
            }
            Before::Passed { e, earlier } => {
                either(earlier.first_use(variable), first_use(variable, e))
            }
        }
    }

    /// With one more name that is bound.
    pub fn with_name(&'s self, name: &'a Name) -> Before<'s, 'a>
        ensures { before_of result ≡ b.Named name.now ∷ before_of self.now }
    {
        Before::Named {
            name,
            earlier: self,
        }
    }

    /// With one more expression that is evaluated.
    pub fn with_passed(&'s self, e: &'a Expr) -> Before<'s, 'a>
        ensures { before_of result ≡ b.Passed (term_of e.now) ∷ before_of self.now }
    {
        Before::Passed { e, earlier: self }
    }
}
