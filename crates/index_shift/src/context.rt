// The types that stand for a variable's.
ghost use Rattle.std.specs.Prelude.{◌≡◌, [], ◌∷◌, IfOk};
ghost use Rattle.raml_syntax.specs.Read.{ty_of};
ghost use Rattle.base_poly.specs.Read.{context_of};
ghost use Rattle.index_shift.specs.Parts.{type_parts};

use raml_syntax::Ty;
use std::alloc::{AllocError, Global};

/// The types that stand for this one once it is taken apart.
pub fn type_parts(alloc: Global, ty: &Ty) -> Result<Vec<Ty>, AllocError>
    ensures { IfOk result (λ parts. context_of parts.items ≡ type_parts (ty_of ty.now)) }
{
    match ty {
        Ty::Int | Ty::Bool => Ok(Vec::new(alloc)),
        Ty::Pair(first, second) => two(alloc, first, second),
        Ty::List(element) => two(alloc, element, ty),
        Ty::Tree(element) => {
            let mut parts = two(alloc, element, ty)?;
            parts.push(ty.copy(alloc)?)?;
            Ok(parts)
        }
        Ty::Opt(content) => one(alloc, content),
    }
}

/// The type alone.
pub fn one(alloc: Global, ty: &Ty) -> Result<Vec<Ty>, AllocError>
    ensures { IfOk result (λ types. context_of types.items ≡ ty_of ty.now ∷ []) }
{
    Ok(vec![in alloc; ty.copy(alloc)?]?)
}

/// Both types.
pub fn two(alloc: Global, first: &Ty, second: &Ty) -> Result<Vec<Ty>, AllocError>
    ensures { IfOk result (λ types. context_of types.items ≡ ty_of first.now ∷ (ty_of second.now ∷ [])) }
{
    Ok(vec![in alloc; first.copy(alloc)?, second.copy(alloc)?]?)
}
