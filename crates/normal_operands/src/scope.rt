// Names in scope.
ghost use Rattle.std.specs.Prelude.{◌≡◌};
ghost use Rattle.raml_syntax.specs.Types.{type_at};
ghost use Rattle.normal_spec.specs.One as one;
ghost use Rattle.normal_operands.specs.Types.{wanted};
ghost use Rattle.normal_operands.specs.Read.{scope_in};

use crate::types::TyRef;
use raml_syntax::{FunctionNames, Name};

/// A variable: its name, its number and its type.
#[derive(Clone, Copy)]
pub struct Local<'s, 'a> {
    pub name: &'a Name,
    pub number: u32,
    pub ty: TyRef<'s>,
}

/// The variables at hand, the newest outermost.
#[derive(Clone, Copy)]
pub enum Scope<'s, 'a> {
    Empty,
    Bound {
        local: Local<'s, 'a>,
        outer: &'s Scope<'s, 'a>,
    },
}

/// What names stand for at a place of the program.
#[derive(Clone, Copy)]
pub struct Env<'s, 'a> {
    pub names: &'s FunctionNames<'a>,
    pub scope: &'s Scope<'s, 'a>,
    /// The least number that is free.
    pub free: u32,
}

impl<'s, 'a> Scope<'s, 'a> {
    /// The number of the newest variable of this name; 0 where there is none.
    pub fn number_of(&self, name: &str) -> u32
        ensures { result ≡ one.number_of name.now (scope_in self.now) }
    {
        match self {
            Scope::Empty => 0,
            Scope::Bound { local, outer } => {
                if name == local.name.text() {
                    local.number
                } else {
                    outer.number_of(name)
                }
            }
        }
    }

    /// The type of the newest variable of this name.
    pub fn type_of(&self, name: &str) -> Option<TyRef<'s>>
        ensures { wanted result ≡ type_at name.now (one.types_in (scope_in self.now)) }
    {
        match self {
            Scope::Empty => None,
            Scope::Bound { local, outer } => {
                if name == local.name.text() {
                    Some(local.ty)
                } else {
                    outer.type_of(name)
                }
            }
        }
    }
}
