// Names of a source.
ghost use Rattle.std.specs.Prelude.{◌≡◌};
ghost use Rattle.raml_syntax.specs.Read as r;
ghost use Rattle.explain_scopes.specs.Scopes as s;
ghost use Rattle.explain_scopes.specs.Read.{bound_of, occurrence_of};

use raml_syntax::{Binder, Name, Param, Pos};

/// What a name stands for.
#[derive(Clone, Copy, PartialEq, Eq, Debug)]
pub enum Kind {
    Function,
    Variable,
}

/// A name that is bound, and the place where it stands.
#[derive(Clone, Copy)]
pub struct Bound<'a> {
    pub at: Pos,
    pub name: &'a Name,
}

impl<'a> Bound<'a> {
    /// What a pattern or a `let` binds.
    pub fn binder(binder: &'a Binder) -> Bound<'a>
        ensures { bound_of result ≡ r.bound_of binder.now }
    {
        Bound {
            at: binder.at,
            name: &binder.name,
        }
    }

    /// A parameter.
    pub fn parameter(param: &'a Param) -> Bound<'a>
        ensures { bound_of result ≡ s.parameter (r.parameter_of param.now) }
    {
        Bound {
            at: param.at,
            name: &param.name,
        }
    }

    /// The name, as it stands where it is bound.
    pub fn occurrence(self, kind: Kind) -> Occurrence<'a>
        ensures { occurrence_of result ≡ s.binds kind (bound_of self.entry) }
    {
        Occurrence {
            at: self.at,
            name: self.name,
            kind,
            binding: Some(self.at),
        }
    }
}

/// A name that stands in the text, with the place where the binding stands that it means: its own, where it binds.
#[derive(Clone, Copy)]
pub struct Occurrence<'a> {
    pub at: Pos,
    pub name: &'a Name,
    pub kind: Kind,
    pub binding: Option<Pos>,
}
