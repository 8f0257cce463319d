// Nodes, and copies of names and parameters.
ghost use Rattle.std.specs.Prelude.{◌≡◌, IfOk, map};
ghost use Rattle.raml_syntax.specs.Read.{form_of, bound_of, parameter_of};
ghost use Rattle.explain_count.specs.Read.{term_in};

use raml_syntax::{Binder, Expr, Form, Name, Param, Pos};
use std::alloc::{AllocError, Global};

/// An expression of this form at this place.
pub fn node(alloc: Global, at: Pos, form: Form) -> Result<Box<Expr>, AllocError>
    ensures { IfOk result (λ made. term_in made ≡ form_of form at.0) }
{
    Ok(Box::new(alloc, Expr { at, form })?)
}

pub fn copy_name(alloc: Global, name: &Name) -> Result<Name, AllocError>
    ensures { IfOk result (λ copy. copy ≡ name.now) }
{
    Name::new(alloc, name.text())
}

pub fn copy_binder(alloc: Global, binder: &Binder) -> Result<Binder, AllocError>
    ensures { IfOk result (λ copy. bound_of copy ≡ bound_of binder.now) }
{
    Ok(Binder {
        at: binder.at,
        name: copy_name(alloc, &binder.name)?,
    })
}

fn copy_param(alloc: Global, param: &Param) -> Result<Param, AllocError>
    ensures { IfOk result (λ copy. parameter_of copy ≡ parameter_of param.now) }
{
    Ok(Param {
        at: param.at,
        name: copy_name(alloc, &param.name)?,
        ty: param.ty.copy(alloc)?,
    })
}

pub fn copy_params(alloc: Global, params: &[Param]) -> Result<Vec<Param>, AllocError>
    ensures { IfOk result (λ copies. map parameter_of copies.items ≡ map parameter_of params.now) }
{
    let mut copies = Vec::new(alloc);
    for param in params {
        copies.push(copy_param(alloc, param)?)?;
    }
    Ok(copies)
}
