// Free variables.
ghost use Rattle.std.specs.Prelude.{◌≡◌, ◌++◌, ℕ, IfOk, OnOk};
ghost use Rattle.normal_spec.specs.Read.{const_form, norm_of, op_form};
ghost use Rattle.share_normal.specs.Frees as frees;
ghost use Rattle.share_normal.specs.Frees.{AreGathered, Shows, ShowsLeaf, ShowsOne, ShowsTwo, others};
ghost use Rattle.share_normal.specs.Numbers.{NumbersFit};
ghost use Rattle.share_normal.specs.ReadFree.{frees_of};

use crate::variables::{Variables, among};
use normal_spec::{Const, NormExpr, NormForm, NormOp};
use std::alloc::{AllocError, Global};

/// The free variables of a form, and those of its parts.
#[derive(Drop)]
pub enum FreeVariables {
    Leaf(Variables),
    One(Variables, Box<FreeVariables>),
    Two(Variables, Box<FreeVariables>, Box<FreeVariables>),
}

impl FreeVariables {
    /// Those of the form.
    pub fn of_form(&self) -> &Variables
        ensures { result.now ≡ frees.own (frees_of self.now) }
    {
        match self {
            FreeVariables::Leaf(form) => form,
            FreeVariables::One(form, _) => form,
            FreeVariables::Two(form, _, _) => form,
        }
    }

    /// Those of the form, ascending.
    fn variables(&self) -> &[u32]
        ensures { result.now ≡ frees.own (frees_of self.now) }
    {
        self.of_form().as_slice()
    }

    /// Those of its first part.
    pub fn of_first(&self) -> &FreeVariables
        ensures { frees_of result.now ≡ frees.first (frees_of self.now) }
    {
        match self {
            FreeVariables::Leaf(_) => self,
            FreeVariables::One(_, first) => first,
            FreeVariables::Two(_, first, _) => first,
        }
    }

    /// Those of its second part.
    pub fn of_second(&self) -> &FreeVariables
        ensures { frees_of result.now ≡ frees.second (frees_of self.now) }
    {
        match self {
            FreeVariables::Leaf(_) => self,
            FreeVariables::One(_, _) => self,
            FreeVariables::Two(_, _, second) => second,
        }
    }
}

/// Appends the variables of a part that are not bound for it.
fn push_others(variables: &mut Vec<u32>, part: &[u32], bound: &[u32]) -> Result<(), AllocError>
    ensures { OnOk result (variables.new.items ≡ variables.old.items ++ others bound.now part.now) }
{
    for variable in part {
        if !among(*variable, bound) {
            variables.push(*variable)?;
        }
    }
    Ok(())
}

/// The variables of operands, those of a first part, and those of a second one that are not bound.
fn gathered(
    alloc: Global,
    operands: &[u32],
    first: &[u32],
    bound: &[u32],
    second: &[u32],
) -> Result<Variables, AllocError>
    ensures { IfOk result (λ set. AreGathered set operands.now first.now bound.now second.now) }
{
    let mut variables = Vec::from_slice(alloc, operands)?;
    variables.extend_from_slice(first)?;
    push_others(&mut variables, second, bound)?;
    Variables::new(variables)
}

/// The free variables of a form without parts.
fn leaf(alloc: Global, operands: &[u32]) -> Result<FreeVariables, AllocError>
    ensures { IfOk result (λ free. ShowsLeaf (frees_of free) operands.now) }
{
    let variables = Vec::from_slice(alloc, operands)?;
    Ok(FreeVariables::Leaf(Variables::new(variables)?))
}

/// The free variables of a form with one part, for which it binds some.
#[cycle(free)]
#[tactic(auto, using(crate::proofs::Members::shows_one))]
fn one(
    alloc: Global,
    operands: &[u32],
    bound: &[u32],
    part: &NormExpr,
) -> Result<FreeVariables, AllocError>
    ensures shows { IfOk result (λ free. ShowsOne (frees_of free) operands.now bound.now (norm_of part.now)) }
    ensures numbers { OnOk result (NumbersFit (norm_of part.now)) }
{
    let part = Box::new(alloc, free_variables(alloc, part)?)?;
    let form = gathered(alloc, operands, &[], bound, part.variables())?;
    Ok(FreeVariables::One(form, part))
}

/// The free variables of a form with two parts, for the second of which it binds some.
#[cycle(free)]
#[tactic(auto, using(crate::proofs::Members::shows_two))]
fn two(
    alloc: Global,
    operands: &[u32],
    first: &NormExpr,
    bound: &[u32],
    second: &NormExpr,
) -> Result<FreeVariables, AllocError>
    ensures shows { IfOk result (λ free. ShowsTwo (frees_of free) operands.now (norm_of first.now) bound.now (norm_of second.now)) }
    ensures numbers { OnOk result (NumbersFit (norm_of first.now) × NumbersFit (norm_of second.now)) }
{
    let first = Box::new(alloc, free_variables(alloc, first)?)?;
    let second = Box::new(alloc, free_variables(alloc, second)?)?;
    let form = gathered(
        alloc,
        operands,
        first.variables(),
        bound,
        second.variables(),
    )?;
    Ok(FreeVariables::Two(form, first, second))
}

/// The free variables of an operator's form.
fn of_operator(alloc: Global, op: NormOp) -> Result<FreeVariables, AllocError>
    ensures { IfOk result (λ free. (nodes : ℕ) → Shows (frees_of free) (op_form op nodes)) }
{
    match op {
        NormOp::Arith(_, x, y) | NormOp::Compare(_, x, y) => leaf(alloc, &[x, y]),
        NormOp::Not(x) => leaf(alloc, &[x]),
    }
}

/// A constant has no free variables.
fn of_constant(alloc: Global, constant: Const) -> Result<FreeVariables, AllocError>
    ensures shows { IfOk result (λ free. (nodes : ℕ) → Shows (frees_of free) (const_form constant nodes)) }
    ensures numbers { (nodes : ℕ) → NumbersFit (const_form constant nodes) }
{
    match constant {
        Const::Number(_) | Const::Truth(_) => leaf(alloc, &[]),
    }
}

/// The free variables of a form and of its parts.
#[cycle(free)]
pub fn free_variables(alloc: Global, expr: &NormExpr) -> Result<FreeVariables, AllocError>
    ensures shows { IfOk result (λ free. Shows (frees_of free) (norm_of expr.now)) }
    ensures numbers { OnOk result (NumbersFit (norm_of expr.now)) }
{
    match &expr.form {
        NormForm::Var(x) => leaf(alloc, &[*x]),
        NormForm::Nil | NormForm::Leaf | NormForm::Nothing => leaf(alloc, &[]),
        NormForm::Const(constant) => of_constant(alloc, *constant),
        NormForm::Op(op) => of_operator(alloc, *op),
        NormForm::Pair(x, y) => leaf(alloc, &[*x, *y]),
        NormForm::Cons(head, tail) => leaf(alloc, &[*head, *tail]),
        NormForm::Node(element, left, right) => leaf(alloc, &[*element, *left, *right]),
        NormForm::Just(x) => leaf(alloc, &[*x]),
        NormForm::Call(_, args) => leaf(alloc, args),
        NormForm::Let(x, _, a, b) => two(alloc, &[], a, &[*x], b),
        NormForm::Split(x, first, second, a) => one(alloc, &[*x], &[*first, *second], a),
        NormForm::If(x, a, b) => two(alloc, &[*x], a, &[], b),
        NormForm::CaseList(x, a, head, tail, b) => two(alloc, &[*x], a, &[*head, *tail], b),
        NormForm::CaseTree(x, a, element, left, right, b) => {
            two(alloc, &[*x], a, &[*element, *left, *right], b)
        }
        NormForm::CaseOption(x, a, content, b) => two(alloc, &[*x], a, &[*content], b),
        NormForm::Tick(_, a) => one(alloc, &[], &[], a),
        NormForm::Share(x, first, second, a) => one(alloc, &[*x], &[*first, *second], a),
        NormForm::Drop(x, a) => one(alloc, &[*x], &[], a),
    }
}
