// Operators.
ghost use Rattle.std.specs.Prelude.{◌≡◌, IfOk};
ghost use Rattle.raml_syntax.specs.Tree as t;
ghost use Rattle.raml_syntax.specs.Read.{term_of};
ghost use Rattle.price_file.specs.Read.{term_in, applied_by};

use crate::construct::Construct;
use crate::node::{Maker, node};
use crate::nodes::apply_expr;
use raml_syntax::{ArithOp, CompareOp, Expr, Form, Pos};
use std::alloc::AllocError;

#[cycle(nodes)]
pub fn apply_arith<'a>(
    maker: Maker<'a>,
    at: Pos,
    op: ArithOp,
    left: &Expr,
    right: &Expr,
) -> Result<Box<Expr>, AllocError>
    ensures { IfOk result (λ made. term_in made ≡ applied_by maker.entry (t.Arith at.0 op (term_of left.now) (term_of right.now))) }
{
    let left = apply_expr(maker, left)?;
    let right = apply_expr(maker, right)?;
    node(maker, at, Construct::Arith, Form::Arith(op, left, right))
}

#[cycle(nodes)]
pub fn apply_compare<'a>(
    maker: Maker<'a>,
    at: Pos,
    op: CompareOp,
    left: &Expr,
    right: &Expr,
) -> Result<Box<Expr>, AllocError>
    ensures { IfOk result (λ made. term_in made ≡ applied_by maker.entry (t.Compare at.0 op (term_of left.now) (term_of right.now))) }
{
    let left = apply_expr(maker, left)?;
    let right = apply_expr(maker, right)?;
    node(
        maker,
        at,
        Construct::Compare,
        Form::Compare(op, left, right),
    )
}

#[cycle(nodes)]
pub fn apply_not<'a>(maker: Maker<'a>, at: Pos, operand: &Expr) -> Result<Box<Expr>, AllocError>
    ensures { IfOk result (λ made. term_in made ≡ applied_by maker.entry (t.Not at.0 (term_of operand.now))) }
{
    let operand = apply_expr(maker, operand)?;
    node(maker, at, Construct::Not, Form::Not(operand))
}
