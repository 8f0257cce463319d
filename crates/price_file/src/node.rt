// Nodes behind their prices, and the names in them.
ghost use Rattle.std.specs.Prelude.{◌≡◌, ◌≤◌, IfOk, length, map};
ghost use Rattle.raml_syntax.specs.Tree as t;
ghost use Rattle.raml_syntax.specs.Read.{term_of, form_of, bound_of, parameter_of};
ghost use Rattle.price_file.specs.Applied.{behind_ticks};
ghost use Rattle.price_file.specs.Read.{prices_of, term_in};

use crate::construct::Construct;
use crate::prices::Prices;
use raml_syntax::{Binder, Expr, Form, Name, Param, Pos};
use std::alloc::{AllocError, Global};

/// What nodes are made with.
#[derive(Clone, Copy)]
pub struct Maker<'a> {
    pub prices: &'a Prices,
    pub alloc: Global,
}

/// The expression behind so many ticks, at this place; as it is where there are none.
fn behind_ticks(alloc: Global, at: Pos, ticks: u32, e: Box<Expr>) -> Result<Box<Expr>, AllocError>
    ensures { IfOk result (λ made. term_in made ≡ behind_ticks ticks at.0 (term_in e)) }
{
    if ticks == 0 {
        return Ok(e);
    }
    let form = Form::Tick(ticks, e);
    Ok(Box::new(alloc, Expr { at, form })?)
}

/// A node of this construct, at this place, behind its price.
pub fn node<'a>(
    maker: Maker<'a>,
    at: Pos,
    construct: Construct,
    form: Form,
) -> Result<Box<Expr>, AllocError>
    ensures { IfOk result (λ made. term_in made ≡ behind_ticks (prices_of maker.entry.prices.now construct) at.0 (form_of form at.0)) }
{
    let whole = Box::new(maker.alloc, Expr { at, form })?;
    behind_ticks(maker.alloc, at, maker.prices.price(construct), whole)
}

/// A copy of a name.
pub fn copy_name(alloc: Global, name: &Name) -> Result<Name, AllocError>
    ensures { IfOk result (λ copy. copy ≡ name.now) }
{
    Name::new(alloc, name.text())
}

/// A copy of a name that is bound.
pub fn copy_binder(alloc: Global, binder: &Binder) -> Result<Binder, AllocError>
    ensures { IfOk result (λ copy. bound_of copy ≡ bound_of binder.now) }
{
    Ok(Binder {
        at: binder.at,
        name: copy_name(alloc, &binder.name)?,
    })
}

/// A copy of a parameter.
fn copy_param(alloc: Global, param: &Param) -> Result<Param, AllocError>
    ensures { IfOk result (λ copy. parameter_of copy ≡ parameter_of param.now) }
{
    Ok(Param {
        at: param.at,
        name: copy_name(alloc, &param.name)?,
        ty: param.ty.copy(alloc)?,
    })
}

/// Copies of parameters.
pub fn copy_params(alloc: Global, params: &[Param]) -> Result<Vec<Param>, AllocError>
    ensures { IfOk result (λ copies. map parameter_of copies.items ≡ map parameter_of params.now) }
{
    let mut copies = Vec::new(alloc);
    for param in params {
        copies.push(copy_param(alloc, param)?)?;
    }
    Ok(copies)
}
