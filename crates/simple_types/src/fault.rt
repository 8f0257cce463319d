// Why a program is not typed.
ghost use Rattle.std.specs.Prelude.{◌≡◌};
ghost use Rattle.simple_types.specs.declared.fault.TypeFault.TheVariants.{NoMemory};

use raml_syntax::{Pos, Ty};
use std::alloc::AllocError;

/// What a type is, or is to be.
#[derive(Debug, Drop)]
pub enum Shape {
    Is(Ty),
    SomeList,
    SomeTree,
    SomeOption,
    SomePair,
}

/// Why a program is not typed.
#[derive(Debug, Drop)]
pub enum TypeFault {
    /// No variable, or no function, has the name.
    Unknown { at: Pos },
    /// The name stands before it, where all names differ.
    Twice { at: Pos },
    /// The expression has, or makes, a type of another shape than is wanted.
    Wanted { at: Pos, want: Shape, got: Shape },
    /// `nil`, `leaf` or `none` stands where no type is wanted.
    NeedsType { at: Pos },
    /// A call of a function with `want` parameters has `got` arguments.
    Arity { at: Pos, want: u32, got: u32 },
    NoMemory,
}

impl From<AllocError> for TypeFault {
    ghost from_gives = { λ _ fault. fault ≡ NoMemory };

    fn from(_error: AllocError) -> TypeFault {
        TypeFault::NoMemory
    }
}
