// Programs from their texts.
ghost use Rattle.std.specs.Prelude.{◌≡◌, ◌<◌, ◌^◌, [], ◌∷◌, IfOk, IsTrue};
ghost use Rattle.raml_syntax.specs.Tree.{Integer};
ghost use Rattle.raml_syntax.specs.Types.{types_of};
ghost use Rattle.raml_syntax.specs.Node.{program_nodes};
ghost use Rattle.raml_syntax.specs.Read.{program_of, function_of, ty_of};

use raml_parse::parse;
use raml_syntax::{Fun, Ty};
use simple_types::{Typed, check};
use std::alloc::Global;
use std::test::Fail;

/// The typed program that a short text spells.
pub fn typed_program(alloc: Global, source: &str) -> Result<Typed, Fail>
    ensures { IfOk result (λ typed. program_nodes (program_of typed) < 2 ^ 28) }
{
    if source.len() > 1500 {
        return Err(Fail::from("the source is long"));
    }
    let Ok(program) = parse(alloc, source.as_bytes()) else {
        return Err(Fail::from("it is no program"));
    };
    match check(alloc, program) {
        Ok(typed) => Ok(typed),
        Err(_) => Err(Fail::from("it is not typed")),
    }
}

/// The type of numbers.
pub fn int() -> Ty
    ensures { ty_of result ≡ Integer }
{
    Ty::Int
}

/// Whether a function has one parameter, of this type.
pub fn takes_one(fun: &Fun, ty: &Ty) -> bool
    ensures { IsTrue result → types_of (function_of fun.now) ≡ ty_of ty.now ∷ [] }
{
    match fun.params.as_slice() {
        [first] => first.ty.same(ty),
        _ => false,
    }
}

/// Whether a function has two parameters, both of this type.
pub fn takes_two(fun: &Fun, ty: &Ty) -> bool
    ensures { IsTrue result → types_of (function_of fun.now) ≡ ty_of ty.now ∷ ty_of ty.now ∷ [] }
{
    match fun.params.as_slice() {
        [first, second] => first.ty.same(ty) && second.ty.same(ty),
        _ => false,
    }
}
