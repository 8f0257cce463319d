// Functions and programs.
ghost use Rattle.std.specs.Prelude.{◌≡◌, ◌<◌, ◌^◌, ℕ, Option, length};
ghost use Rattle.raml_syntax.specs.Read.{program_of, place_in};
ghost use Rattle.raml_syntax.specs.Place.{place_of};

use crate::name::Name;
use crate::tree::{Expr, Pos};
use crate::ty::Ty;

/// A function, by its place in its program, from 0.
#[derive(Clone, Copy, PartialEq, Eq, Debug)]
pub struct FunId(pub u32);

/// A parameter, with the place of its name.
#[derive(Debug, Drop)]
pub struct Param {
    pub at: Pos,
    pub name: Name,
    pub ty: Ty,
}

/// A function, with the place of its `fun`.
#[derive(Debug, Drop)]
pub struct Fun {
    pub at: Pos,
    pub name: Name,
    pub params: Vec<Param>,
    pub result: Ty,
    pub body: Expr,
}

/// A program: its functions in the order of the source.
#[derive(Debug, Drop)]
pub struct Program {
    pub funs: Vec<Fun>,
}

impl Program {
    /// The first function of this name; `None` where there is none.
    pub fn find(&self, name: &str) -> Option<FunId>
        requires { length (program_of self.now) < 2 ^ 32 }
        ensures { place_in result ≡ place_of name.now (program_of self.now) }
    {
        let mut place = 0;
        for fun in &self.funs {
            if fun.name.text() == name {
                return Some(FunId(place));
            }
            place += 1;
        }
        None
    }
}
