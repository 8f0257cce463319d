// Operands, and the forms around which they are bound.
ghost use Rattle.std.specs.Prelude.{◌≡◌, ◌+◌, IfOk, map};
ghost use Rattle.raml_syntax.specs.Read.{ty_of};
ghost use Rattle.normal_spec.specs.Norm as n;
ghost use Rattle.normal_spec.specs.One as one;
ghost use Rattle.normal_spec.specs.Read.{form_of};
ghost use Rattle.normal_operands.specs.Read.{norm_in};
ghost use Rattle.normal_operands.specs.Operand.{operand_of, operands_of};

use crate::maker::Maker;
use normal_spec::{NormExpr, NormForm};
use raml_syntax::Ty;
use std::alloc::{AllocError, Global};

/// A new variable, and the type and the form that it is bound to.
#[derive(Drop)]
pub struct Binding {
    pub number: u32,
    pub ty: Ty,
    pub form: Box<NormExpr>,
}

/// What stands for an operand: a variable that is there, or a new one.
#[derive(Drop)]
pub enum Operand {
    Is(u32),
    Binds(Box<Binding>),
}

/// The sum. Where it leaves 32 bits, memory is wanting.
pub fn plus(left: u32, right: u32) -> Result<u32, AllocError>
    ensures { IfOk result (λ sum. sum ≡ left + right) }
{
    match left.checked_add(right) {
        Some(sum) => Ok(sum),
        None => Err(AllocError),
    }
}

impl Operand {
    /// The variable.
    pub fn variable(&self) -> u32
        ensures { result ≡ one.name (operand_of self.now) }
    {
        match self {
            Operand::Is(variable) => *variable,
            Operand::Binds(binding) => binding.number,
        }
    }

    /// The least number that is free behind the operand.
    pub fn after(&self, free: u32) -> Result<u32, AllocError>
        ensures { IfOk result (λ after. after ≡ one.after free (operand_of self.now)) }
    {
        match self {
            Operand::Is(_) => Ok(free),
            Operand::Binds(binding) => plus(binding.number, 1),
        }
    }

    /// The nodes of the operand that its form carries.
    fn bare(&self) -> u32
        ensures { result ≡ one.bare (operand_of self.now) }
    {
        match self {
            Operand::Is(_) => 1,
            Operand::Binds(_) => 0,
        }
    }

    /// Binds the operand before a form, where it is a new variable.
    fn wrap(self, maker: &Maker, rest: Box<NormExpr>) -> Result<Box<NormExpr>, AllocError>
        ensures { IfOk result (λ made. norm_in made ≡ one.wrap (operand_of self) (norm_in rest)) }
    {
        match self {
            Operand::Is(_) => Ok(rest),
            Operand::Binds(binding) => bind(maker, Box::into_inner(binding), rest),
        }
    }
}

/// Binds a variable before a form.
fn bind(maker: &Maker, binding: Binding, rest: Box<NormExpr>) -> Result<Box<NormExpr>, AllocError>
    ensures { IfOk result (λ made. norm_in made ≡ n.Let 0 binding.number (ty_of binding.ty) (norm_in binding.form) (norm_in rest)) }
{
    let Binding { number, ty, form } = binding;
    maker.form(0, NormForm::Let(number, ty, form, rest))
}

/// The variables of operands.
pub fn variables_of(alloc: Global, operands: &[Operand]) -> Result<Vec<u32>, AllocError>
    ensures { IfOk result (λ variables. variables.items ≡ map one.name (operands_of operands.now)) }
{
    let mut variables = Vec::new(alloc);
    for operand in operands {
        variables.push(operand.variable())?;
    }
    Ok(variables)
}

/// The nodes of all operands that their form carries.
fn bare_all(operands: &[Operand]) -> Result<u32, AllocError>
    ensures { IfOk result (λ sum. sum ≡ one.bare_all (operands_of operands.now)) }
{
    let mut sum = 0;
    for operand in operands {
        sum = plus(sum, operand.bare())?;
    }
    Ok(sum)
}

/// Binds operands in order before a form.
#[tactic(auto, using(crate::proofs::Carried::wrap_all_push))]
fn wrap_all(
    maker: &Maker,
    mut operands: Vec<Operand>,
    rest: Box<NormExpr>,
) -> Result<Box<NormExpr>, AllocError>
    ensures { IfOk result (λ made. norm_in made ≡ one.wrap_all (operands_of operands.items) (norm_in rest)) }
{
    let mut made = rest;
    while let Some(operand) = operands.pop() {
        made = operand.wrap(maker, made)?;
    }
    Ok(made)
}

/// Adds nodes to the outermost form.
#[tactic(auto, using(crate::proofs::Carried::carries_form))]
pub fn carry(nodes: u32, mut e: Box<NormExpr>) -> Result<Box<NormExpr>, AllocError>
    ensures { IfOk result (λ made. norm_in made ≡ n.carries nodes (norm_in e)) }
{
    e.nodes = plus(nodes, e.nodes)?;
    Ok(e)
}

/// A form of one operand, which is bound before it.
pub fn close_one(
    maker: &Maker,
    operand: Operand,
    form: NormForm,
) -> Result<Box<NormExpr>, AllocError>
    ensures { IfOk result (λ made. norm_in made ≡ one.with_one (λ x. form_of form 0) (operand_of operand)) }
{
    let last = maker.form(0, form)?;
    let nodes = plus(1, operand.bare())?;
    carry(nodes, operand.wrap(maker, last)?)
}

/// A form of two operands, which are bound before it in order.
pub fn close_two(
    maker: &Maker,
    first: Operand,
    second: Operand,
    form: NormForm,
) -> Result<Box<NormExpr>, AllocError>
    ensures { IfOk result (λ made. norm_in made ≡ one.with_two (λ x y. form_of form 0) (operand_of first) (operand_of second)) }
{
    let last = maker.form(0, form)?;
    let nodes = plus(1, plus(first.bare(), second.bare())?)?;
    let inner = second.wrap(maker, last)?;
    carry(nodes, first.wrap(maker, inner)?)
}

/// A form of three operands, which are bound before it in order.
pub fn close_three(
    maker: &Maker,
    first: Operand,
    second: Operand,
    third: Operand,
    form: NormForm,
) -> Result<Box<NormExpr>, AllocError>
    ensures { IfOk result (λ made. norm_in made ≡ one.with_three
        (λ x y z. form_of form 0) (operand_of first) (operand_of second) (operand_of third)) }
{
    let last = maker.form(0, form)?;
    let nodes = plus(1, plus(first.bare(), plus(second.bare(), third.bare())?)?)?;
    let inmost = third.wrap(maker, last)?;
    let middle = second.wrap(maker, inmost)?;
    carry(nodes, first.wrap(maker, middle)?)
}

/// A form of any operands, which are bound before it in order.
pub fn close_all(
    maker: &Maker,
    operands: Vec<Operand>,
    form: NormForm,
) -> Result<Box<NormExpr>, AllocError>
    ensures { IfOk result (λ made. norm_in made ≡ one.with_all (λ xs. form_of form 0) (operands_of operands.items)) }
{
    let last = maker.form(0, form)?;
    let nodes = plus(1, bare_all(&operands)?)?;
    carry(nodes, wrap_all(maker, operands, last)?)
}
