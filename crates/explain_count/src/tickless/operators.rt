// Operators.
ghost use Rattle.std.specs.Prelude.{◌≡◌, IfOk};
ghost use Rattle.raml_syntax.specs.Tree as t;
ghost use Rattle.raml_syntax.specs.Read.{term_of};
ghost use Rattle.explain_count.specs.Count.{without_ticks};
ghost use Rattle.explain_count.specs.Read.{term_in};

use crate::copied::node;
use crate::tickless::without_ticks;
use raml_syntax::{ArithOp, CompareOp, Expr, Form, Pos};
use std::alloc::{AllocError, Global};

#[cycle(tickless)]
pub fn arith(
    alloc: Global,
    at: Pos,
    op: ArithOp,
    left: &Expr,
    right: &Expr,
) -> Result<Box<Expr>, AllocError>
    ensures { IfOk result (λ made. term_in made ≡ without_ticks (t.Arith at.0 op (term_of left.now) (term_of right.now))) }
{
    let left = without_ticks(alloc, left)?;
    let right = without_ticks(alloc, right)?;
    node(alloc, at, Form::Arith(op, left, right))
}

#[cycle(tickless)]
pub fn compare(
    alloc: Global,
    at: Pos,
    op: CompareOp,
    left: &Expr,
    right: &Expr,
) -> Result<Box<Expr>, AllocError>
    ensures { IfOk result (λ made. term_in made ≡ without_ticks (t.Compare at.0 op (term_of left.now) (term_of right.now))) }
{
    let left = without_ticks(alloc, left)?;
    let right = without_ticks(alloc, right)?;
    node(alloc, at, Form::Compare(op, left, right))
}

#[cycle(tickless)]
pub fn not(alloc: Global, at: Pos, operand: &Expr) -> Result<Box<Expr>, AllocError>
    ensures { IfOk result (λ made. term_in made ≡ without_ticks (t.Not at.0 (term_of operand.now))) }
{
    let operand = without_ticks(alloc, operand)?;
    node(alloc, at, Form::Not(operand))
}
