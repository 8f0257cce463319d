// Slots: the variables of step one, each with the copy that stands for it.
ghost use Rattle.std.specs.Prelude.{◌≡◌, ◌++◌, IfOk};
ghost use Rattle.normal_spec.specs.Two as two;
ghost use Rattle.share_normal.specs.Made.{form_in};

use crate::marked::Marked;
use std::alloc::{AllocError, Global};
use std::marker::Model;

/// A variable of step one, and the copy that stands for it.
#[derive(Clone, Copy)]
pub struct Slot {
    pub variable: u32,
    pub copy: u32,
}

impl Model for Slot {
    ghost use Rattle.std.specs.Prelude.{ℕ};

    ghost Value = { ℕ × ℕ };

    ghost view = { λ slot. (slot.variable, slot.copy) };

    ghost inverse = { λ pair. record { variable = pair.0; copy = pair.1 } };
}

/// A variable that is shared, and its copies.
#[derive(Clone, Copy)]
pub struct Shared {
    pub variable: u32,
    pub first: u32,
    pub second: u32,
}

impl Model for Shared {
    ghost use Rattle.normal_spec.specs.Two as two;

    ghost Value = { two.Shared };

    ghost view = { λ shared. record { variable = shared.variable; first = shared.first; second = shared.second } };

    ghost inverse = { λ shared. record { variable = shared.variable; first = shared.first; second = shared.second } };
}

/// The copy that stands for the variable.
pub fn copy_of(variable: u32, slots: &[Slot]) -> u32
    ensures { result ≡ two.copy_of variable slots.now }
{
    for slot in slots {
        if variable == slot.variable {
            return slot.copy;
        }
    }
    0
}

/// The slots, with new ones and those that stay in place of the variable's own.
pub fn put(
    alloc: Global,
    variable: u32,
    new: &[Slot],
    stay: &[Slot],
    slots: &[Slot],
) -> Result<Vec<Slot>, AllocError>
    ensures { IfOk result (λ made. made.items ≡ two.put variable (new.now ++ stay.now) slots.now) }
{
    let mut made = Vec::new(alloc);
    let mut found = false;
    for slot in slots {
        if !found && variable == slot.variable {
            found = true;
            made.extend_from_slice(new)?;
            made.extend_from_slice(stay)?;
        } else {
            made.push(*slot)?;
        }
    }
    if !found {
        made.extend_from_slice(new)?;
        made.extend_from_slice(stay)?;
    }
    Ok(made)
}

/// The slots of the variables that are free in the form.
pub fn used<'a>(alloc: Global, marked: Marked<'a>, slots: &[Slot]) -> Result<Vec<Slot>, AllocError>
    ensures { IfOk result (λ made. made.items ≡ two.used (form_in marked.entry) slots.now) }
{
    let mut made = Vec::new(alloc);
    for slot in slots {
        if marked.has_free(slot.variable) {
            made.push(*slot)?;
        }
    }
    Ok(made)
}

/// The slots of the variables that are not free in the form.
pub fn unused<'a>(
    alloc: Global,
    marked: Marked<'a>,
    slots: &[Slot],
) -> Result<Vec<Slot>, AllocError>
    ensures { IfOk result (λ made. made.items ≡ two.unused (form_in marked.entry) slots.now) }
{
    let mut made = Vec::new(alloc);
    for slot in slots {
        if !marked.has_free(slot.variable) {
            made.push(*slot)?;
        }
    }
    Ok(made)
}
