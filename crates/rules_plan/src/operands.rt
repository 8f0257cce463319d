// From operands that are the whole context to the context.
ghost use Rattle.std.specs.Prelude.{◌≡◌, ◌∷◌, IfOk, IsTrue};
ghost use Rattle.raml_syntax.specs.Read.{ty_of};
ghost use Rattle.base_poly.specs.Read.{context_of};
ghost use Rattle.normal_spec.specs.Read.{parameters_of};
ghost use Rattle.annot_types.specs.Carried.{to, operand_places};
ghost use Rattle.rules_spec.specs.Planned.{entries_of, operand_entries};
ghost use Rattle.rules_plan.specs.Context.{AreInOrder};

use crate::context;
use crate::entries::{identity, placed};
use crate::tuples::{permuted_spots, size};
use index_shift::Entry;
use raml_syntax::Ty;
use std::alloc::{AllocError, Global};

// The place of each operand, where those before it are taken out.
fn operand_places(
    alloc: Global,
    context: &[(u32, Ty)],
    operands: &[u32],
) -> Result<Vec<usize>, AllocError>
    ensures { IfOk result (λ found. found.items ≡ operand_places (parameters_of context.now) operands.now) }
{
    let mut found = Vec::new(alloc);
    let mut rest = context::copied(alloc, context)?;
    for x in operands {
        found.push(context::place(&rest, *x))?;
        rest = context::without(alloc, &rest, *x)?;
    }
    Ok(found)
}

// Whether the operands are the variables of the context in their order, with these types.
#[cycle(in_order)]
fn in_order(context: &[(u32, Ty)], operands: &[u32], types: &[Ty]) -> bool
    ensures { IsTrue result → AreInOrder (parameters_of context.now) operands.now (context_of types.now) }
{
    match context {
        [] => operands.is_empty() && types.is_empty(),
        [first, context @ ..] => led_in_order(first, context, operands, types),
    }
}

// The same of a first variable and the others.
#[cycle(in_order)]
fn led_in_order(first: &(u32, Ty), context: &[(u32, Ty)], operands: &[u32], types: &[Ty]) -> bool
    ensures { IsTrue result →
        AreInOrder ((first.now.0, ty_of first.now.1) ∷ parameters_of context.now) operands.now (context_of types.now) }
{
    match operands {
        [] => false,
        [operand, operands @ ..] => match types {
            [] => false,
            [ty, types @ ..] => first.0 == *operand
                && first.1.same(ty)
                && in_order(context, operands, types),
        },
    }
}

/// From operands of these types to the context, at one budget: where they are the context in its
/// order, from each position to itself.
pub fn operand_entries(
    alloc: Global,
    context: &[(u32, Ty)],
    operands: &[u32],
    from: &[Ty],
    d: u8,
) -> Result<Vec<Entry>, AllocError>
    ensures { IfOk result (λ found. found.items ≡ operand_entries (parameters_of context.now) operands.now (context_of from.now) d d) }
{
    if in_order(context, operands, from) {
        same_entries(alloc, from, d)
    } else {
        other_entries(alloc, context, operands, from, d)
    }
}

/// From a context to itself, at one budget.
pub fn same_entries(alloc: Global, types: &[Ty], d: u8) -> Result<Vec<Entry>, AllocError>
    ensures { IfOk result (λ found. found.items ≡ entries_of (to (λ t. t)) (context_of types.now) d (context_of types.now) d) }
{
    let size = size(alloc, types, d)?;
    identity(alloc, size)
}

// From operands in any order.
fn other_entries(
    alloc: Global,
    context: &[(u32, Ty)],
    operands: &[u32],
    from: &[Ty],
    d: u8,
) -> Result<Vec<Entry>, AllocError>
    ensures { IfOk result (λ found. found.items ≡ operand_entries (parameters_of context.now) operands.now (context_of from.now) d d) }
{
    let order = operand_places(alloc, context, operands)?;
    let to = context::types(alloc, context)?;
    let targets = permuted_spots(alloc, &order, from, &to, d)?;
    let size = size(alloc, &to, d)?;
    placed(alloc, &targets, size)
}
