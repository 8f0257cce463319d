// Forms with their free variables.
ghost use Rattle.std.specs.Prelude.{◌≡◌};
ghost use Rattle.normal_spec.specs.Free.{free_in};
ghost use Rattle.normal_spec.specs.Read.{norm_of};
ghost use Rattle.share_normal.specs.Frees as frees;
ghost use Rattle.share_normal.specs.Frees.{Shows, Shows-prop};
ghost use Rattle.share_normal.specs.ReadFree.{frees_of};

use crate::free::FreeVariables;
use normal_spec::NormExpr;

/// A form, with the free variables of it and of its parts.
#[derive(Clone, Copy)]
pub struct Marked<'a> {
    pub expr: &'a NormExpr,
    pub free: &'a FreeVariables,
    pub ghost shown: { Shows (frees_of free.now) (norm_of expr.now) } by { Shows-prop (frees_of free.now) (norm_of expr.now) },
}

impl<'a> Marked<'a> {
    /// The first part of the form.
    pub fn first(self, part: &'a NormExpr) -> Marked<'a>
        requires { Shows (frees.first (frees_of self.free.now)) (norm_of part.now) }
        ensures { result.expr.now ≡ part.now }
    {
        Marked {
            expr: part,
            free: self.free.of_first(),
        }
    }

    /// The second part of the form.
    pub fn second(self, part: &'a NormExpr) -> Marked<'a>
        requires { Shows (frees.second (frees_of self.free.now)) (norm_of part.now) }
        ensures { result.expr.now ≡ part.now }
    {
        Marked {
            expr: part,
            free: self.free.of_second(),
        }
    }

    /// Whether the variable is free in the form.
    pub fn has_free(self, variable: u32) -> bool
        ensures { result ≡ free_in variable (norm_of self.entry.expr.now) }
    {
        self.free.of_form().contains(variable)
    }
}
