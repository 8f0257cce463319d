// The functions of a program by their names.
ghost use Rattle.std.specs.Prelude.{◌≡◌, ◌<◌, ◌^◌, IfOk, length};
ghost use Rattle.std.specs.Borrow.{Bor};
ghost use Rattle.std.specs.Str.{bytes_eq};
ghost use Rattle.indexmap.specs.IndexMap.{get_by};
ghost use Rattle.raml_syntax.specs.Tree.{Text};
ghost use Rattle.raml_syntax.specs.Place.{place_of};
ghost use Rattle.raml_syntax.specs.Read.{program_of, place_in};

use crate::program::{FunId, Program};
use indexmap::IndexMap;
use std::alloc::{AllocError, Global};

/// The functions of a program, each found by its name without a look at the others.
#[derive(Drop)]
pub struct FunctionNames<'a> {
    pub program: &'a Program,
    /// The place of the first function of each name.
    places: IndexMap<&'a str, u32>,
    ghost placed: { (f : Text) → get_by (λ (k : Bor Text). bytes_eq f k.now) places ≡ place_of f (program_of program.now) },
}

impl<'a> FunctionNames<'a> {
    /// The functions of the program.
    pub fn new(alloc: Global, program: &'a Program) -> Result<FunctionNames<'a>, AllocError>
        requires { length (program_of program.now) < 2 ^ 32 }
        ensures { IfOk result (λ names. names.program.now ≡ program.now) }
    {
        let mut places = IndexMap::with_capacity(alloc, program.funs.len())?;
        let mut place = program.funs.len();
        while place > 0 {
            place -= 1;
            places.insert(program.funs[place].name.text(), place as u32)?;
        }
        Ok(FunctionNames { program, places })
    }

    /// The first function of this name; `None` where there is none.
    pub fn find(&self, name: &str) -> Option<FunId>
        ensures { place_in result ≡ place_of name.now (program_of self.now.program.now) }
    {
        match self.places.get(name) {
            Some(place) => Some(FunId(*place)),
            None => None,
        }
    }
}
