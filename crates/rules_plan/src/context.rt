// Contexts: the variables that a form is to use up, with their types.
ghost use Rattle.std.specs.Prelude.{◌≡◌, ◌≤◌, ◌+◌, [], ◌∷◌, ◌++◌, length, drop, zip, IfOk, OnOk};
ghost use Rattle.raml_syntax.specs.Read.{ty_of};
ghost use Rattle.base_poly.specs.Read.{context_of};
ghost use Rattle.normal_spec.specs.Free.{put};
ghost use Rattle.normal_spec.specs.Context.{types, place, without, opened, parts_of, copies_of, inners, others};
ghost use Rattle.normal_spec.specs.Read.{norm_of, parameters_of};
ghost use Rattle.rules_plan.specs.Context.{type_at};

use crate::free::is_free;
use normal_spec::NormExpr;
use raml_syntax::Ty;
use std::alloc::{AllocError, Global};

/// The place of a variable; the length where it is not there.
pub fn place(context: &[(u32, Ty)], x: u32) -> usize
    ensures at { result ≡ place x (parameters_of context.now) }
    ensures low { result ≤ length context.now }
{
    for (at, (variable, _)) in context.iter().enumerate() {
        if *variable == x {
            return at;
        }
    }
    context.len()
}

/// The types of the variables.
pub fn types(alloc: Global, context: &[(u32, Ty)]) -> Result<Vec<Ty>, AllocError>
    ensures { IfOk result (λ found. context_of found.items ≡ types (parameters_of context.now)) }
{
    let mut found = Vec::with_capacity(alloc, context.len())?;
    for (_, ty) in context {
        found.push(ty.copy(alloc)?)?;
    }
    Ok(found)
}

/// The type alone.
pub fn alone(alloc: Global, ty: &Ty) -> Result<Vec<Ty>, AllocError>
    ensures { IfOk result (λ types. context_of types.items ≡ ty_of ty.now ∷ []) }
{
    Ok(vec![in alloc; ty.copy(alloc)?]?)
}

// Both types.
fn two(alloc: Global, first: &Ty, second: &Ty) -> Result<Vec<Ty>, AllocError>
    ensures { IfOk result (λ types. context_of types.items ≡ ty_of first.now ∷ (ty_of second.now ∷ [])) }
{
    Ok(vec![in alloc; first.copy(alloc)?, second.copy(alloc)?]?)
}

/// The types of the parts of a value that is taken apart.
pub fn parts_of(alloc: Global, ty: &Ty) -> Result<Vec<Ty>, AllocError>
    ensures { IfOk result (λ parts. context_of parts.items ≡ parts_of (ty_of ty.now)) }
{
    match ty {
        Ty::Int | Ty::Bool => Ok(Vec::new(alloc)),
        Ty::Pair(first, second) => two(alloc, first, second),
        Ty::List(element) => two(alloc, element, ty),
        Ty::Tree(element) => {
            let mut parts = two(alloc, element, ty)?;
            parts.push(ty.copy(alloc)?)?;
            Ok(parts)
        }
        Ty::Opt(content) => alone(alloc, content),
    }
}

// Appends the variables.
fn append(
    alloc: Global,
    found: &mut Vec<(u32, Ty)>,
    context: &[(u32, Ty)],
) -> Result<(), AllocError>
    ensures { OnOk result (parameters_of found.new.items ≡ parameters_of found.old.items ++ parameters_of context.now) }
{
    for (variable, ty) in context {
        found.push((*variable, ty.copy(alloc)?))?;
    }
    Ok(())
}

/// A copy.
pub fn copied(alloc: Global, context: &[(u32, Ty)]) -> Result<Vec<(u32, Ty)>, AllocError>
    ensures { IfOk result (λ found. parameters_of found.items ≡ parameters_of context.now) }
{
    let mut found = Vec::new(alloc);
    append(alloc, &mut found, context)?;
    Ok(found)
}

// What stands behind a place.
fn behind(context: &[(u32, Ty)], at: usize) -> &[(u32, Ty)]
    ensures { result.now ≡ drop (1 + at) context.now }
{
    if at < context.len() {
        &context[at + 1..]
    } else {
        &[]
    }
}

// New variables in the place of one; at the end where it is not there.
fn put(
    alloc: Global,
    context: &[(u32, Ty)],
    x: u32,
    new: &[(u32, Ty)],
) -> Result<Vec<(u32, Ty)>, AllocError>
    ensures { IfOk result (λ found. parameters_of found.items ≡ put x (parameters_of new.now) (parameters_of context.now)) }
{
    let at = place(context, x);
    let mut found = Vec::new(alloc);
    append(alloc, &mut found, &context[..at])?;
    append(alloc, &mut found, new)?;
    append(alloc, &mut found, behind(context, at))?;
    Ok(found)
}

/// The context without a variable.
pub fn without(alloc: Global, context: &[(u32, Ty)], x: u32) -> Result<Vec<(u32, Ty)>, AllocError>
    ensures { IfOk result (λ found. parameters_of found.items ≡ without x (parameters_of context.now)) }
{
    put(alloc, context, x, &[])
}

// The type of the variable, int by default, as the types of its parts or of its two copies.
#[tactic(auto, using(crate::proofs::Contexts::type_there, crate::proofs::Contexts::no_type))]
fn parts_in(alloc: Global, context: &[(u32, Ty)], x: u32) -> Result<Vec<Ty>, AllocError>
    ensures { IfOk result (λ found. context_of found.items
        ≡ parts_of (type_at (place x (parameters_of context.now)) (parameters_of context.now))) }
{
    let at = place(context, x);
    if at < context.len() {
        parts_of(alloc, &context[at].1)
    } else {
        Ok(Vec::new(alloc))
    }
}

#[tactic(auto, using(crate::proofs::Contexts::type_there, crate::proofs::Contexts::no_type))]
fn copies_in(alloc: Global, context: &[(u32, Ty)], x: u32) -> Result<Vec<Ty>, AllocError>
    ensures { IfOk result (λ found. context_of found.items
        ≡ copies_of (type_at (place x (parameters_of context.now)) (parameters_of context.now))) }
{
    let at = place(context, x);
    if at < context.len() {
        two(alloc, &context[at].1, &context[at].1)
    } else {
        two(alloc, &Ty::Int, &Ty::Int)
    }
}

// The names with the types.
fn named(alloc: Global, names: &[u32], types: &[Ty]) -> Result<Vec<(u32, Ty)>, AllocError>
    ensures { IfOk result (λ found. parameters_of found.items ≡ zip names.now (context_of types.now)) }
{
    let mut found = Vec::new(alloc);
    for (at, name) in names.iter().enumerate() {
        match types.get(at) {
            Some(ty) => found.push((*name, ty.copy(alloc)?))?,
            None => return Ok(found),
        }
    }
    Ok(found)
}

/// The context with new variables for the parts of one.
pub fn opened(
    alloc: Global,
    context: &[(u32, Ty)],
    x: u32,
    names: &[u32],
) -> Result<Vec<(u32, Ty)>, AllocError>
    ensures { IfOk result (λ found. parameters_of found.items ≡ opened x names.now parts_of (parameters_of context.now)) }
{
    let parts = parts_in(alloc, context, x)?;
    let new = named(alloc, names, &parts)?;
    put(alloc, context, x, &new)
}

/// The context with two variables for one.
pub fn shared(
    alloc: Global,
    context: &[(u32, Ty)],
    x: u32,
    names: &[u32],
) -> Result<Vec<(u32, Ty)>, AllocError>
    ensures { IfOk result (λ found. parameters_of found.items ≡ opened x names.now copies_of (parameters_of context.now)) }
{
    let copies = copies_in(alloc, context, x)?;
    let new = named(alloc, names, &copies)?;
    put(alloc, context, x, &new)
}

/// The variables that a form uses.
pub fn inners(
    alloc: Global,
    expr: &NormExpr,
    context: &[(u32, Ty)],
) -> Result<Vec<(u32, Ty)>, AllocError>
    ensures { IfOk result (λ found. parameters_of found.items ≡ inners (norm_of expr.now) (parameters_of context.now)) }
{
    let mut found = Vec::new(alloc);
    for (variable, ty) in context {
        if is_free(*variable, expr) {
            found.push((*variable, ty.copy(alloc)?))?;
        }
    }
    Ok(found)
}

/// Those that it does not use.
pub fn others(
    alloc: Global,
    expr: &NormExpr,
    context: &[(u32, Ty)],
) -> Result<Vec<(u32, Ty)>, AllocError>
    ensures { IfOk result (λ found. parameters_of found.items ≡ others (norm_of expr.now) (parameters_of context.now)) }
{
    let mut found = Vec::new(alloc);
    for (variable, ty) in context {
        if !is_free(*variable, expr) {
            found.push((*variable, ty.copy(alloc)?))?;
        }
    }
    Ok(found)
}

/// The context with a variable more.
pub fn with_bound(
    alloc: Global,
    context: &[(u32, Ty)],
    x: u32,
    ty: &Ty,
) -> Result<Vec<(u32, Ty)>, AllocError>
    ensures { IfOk result (λ found. parameters_of found.items ≡ parameters_of context.now ++ (x, ty_of ty.now) ∷ []) }
{
    let mut found = Vec::new(alloc);
    append(alloc, &mut found, context)?;
    found.push((x, ty.copy(alloc)?))?;
    Ok(found)
}
