// Scopes.
ghost use Rattle.std.specs.Prelude.{◌≡◌, []};
ghost use Rattle.explain_scopes.specs.Scopes.{bound_to};
ghost use Rattle.explain_scopes.specs.Read.{bounds_of, place_in, scope_of};

use crate::occurrence::Bound;
use raml_syntax::Pos;

/// The variables at hand, the newest first.
#[derive(Clone, Copy)]
pub enum Scope<'s, 'a> {
    Empty,
    More {
        newest: Bound<'a>,
        outer: &'s Scope<'s, 'a>,
    },
}

impl<'s, 'a> Scope<'s, 'a> {
    /// No variable yet.
    pub fn empty() -> Scope<'s, 'a>
        ensures { scope_of result ≡ [] }
    {
        Scope::Empty
    }

    /// Where the newest variable of this name is bound.
    pub fn find(&self, wanted: &str) -> Option<Pos>
        ensures { place_in result ≡ bound_to wanted.now (scope_of self.now) }
    {
        match self {
            Scope::Empty => None,
            Scope::More { newest, outer } => {
                if wanted == newest.name.text() {
                    Some(newest.at)
                } else {
                    outer.find(wanted)
                }
            }
        }
    }
}

/// What names stand for at a place of the program.
#[derive(Clone, Copy)]
pub struct Env<'s, 'a> {
    pub functions: &'s [Bound<'a>],
    pub scope: &'s Scope<'s, 'a>,
}

/// Where the first function of this name is bound.
pub fn find_function(functions: &[Bound<'_>], wanted: &str) -> Option<Pos>
    ensures { place_in result ≡ bound_to wanted.now (bounds_of functions.now) }
{
    for function in functions {
        if wanted == function.name.text() {
            return Some(function.at);
        }
    }
    None
}
