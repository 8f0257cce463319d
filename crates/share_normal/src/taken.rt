// Uses of variables, each of which is shared where it is used again.
ghost use Rattle.std.specs.Prelude.{◌≡◌, ◌+◌, IfOk, OnOk};
ghost use Rattle.normal_spec.specs.Two as two;
ghost use Rattle.share_normal.specs.Made.{form_in};
ghost use Rattle.share_normal.specs.ReadTaken.{taken_of, all_taken_of, parted_of};

use crate::marked::Marked;
use crate::slots::{Shared, Slot, copy_of, put};
use crate::variables::among;
use std::alloc::{AllocError, Global};

/// A use of a variable: the copy that is used, the slots that stay in its place, and the share.
#[derive(Drop)]
pub struct Taken {
    pub name: u32,
    pub stay: Vec<Slot>,
    pub shares: Vec<Shared>,
}

/// Uses of variables from left to right.
#[derive(Drop)]
pub struct AllTaken {
    pub names: Vec<u32>,
    pub shares: Vec<Shared>,
}

/// The slots of the two parts of a `Let`, and what is shared between them.
#[derive(Drop)]
pub struct Parted {
    pub first: Vec<Slot>,
    pub second: Vec<Slot>,
    pub shares: Vec<Shared>,
}

/// Step two of a function: its memory, and the least number that is no variable yet.
#[derive(Drop)]
pub struct Sharing {
    pub alloc: Global,
    pub next: u32,
}

impl Sharing {
    /// The number of a new variable.
    pub fn fresh(&mut self) -> Result<u32, AllocError>
        ensures variable { IfOk result (λ variable. variable ≡ self.old.next) }
        ensures next { OnOk result (self.new.next ≡ self.old.next + 1) }
    {
        let variable = self.next;
        let Some(next) = variable.checked_add(1) else {
            return Err(AllocError);
        };
        self.next = next;
        Ok(variable)
    }

    /// The slot of a variable that is bound.
    pub fn bind(&mut self, variable: u32) -> Result<Slot, AllocError>
        ensures slot { IfOk result (λ slot. slot ≡ two.slot variable self.old.next) }
        ensures next { OnOk result (self.new.next ≡ self.old.next + 1) }
    {
        let copy = self.fresh()?;
        Ok(Slot { variable, copy })
    }

    /// A use of a variable, which is shared first where it is used again.
    pub fn take_slot(
        &mut self,
        again: bool,
        variable: u32,
        slots: &[Slot],
    ) -> Result<Taken, AllocError>
        ensures taken { IfOk result (λ taken. taken_of taken ≡ (two.take_slot again variable slots.now self.old.next).0) }
        ensures next { OnOk result (self.new.next ≡ (two.take_slot again variable slots.now self.old.next).1) }
    {
        let copy = copy_of(variable, slots);
        let mut stay = Vec::new(self.alloc);
        let mut shares = Vec::new(self.alloc);
        if !again {
            return Ok(Taken {
                name: copy,
                stay,
                shares,
            });
        }
        let first = self.fresh()?;
        let second = self.fresh()?;
        stay.push(Slot {
            variable,
            copy: second,
        })?;
        shares.push(Shared {
            variable: copy,
            first,
            second,
        })?;
        Ok(Taken {
            name: first,
            stay,
            shares,
        })
    }

    /// Uses of operands from left to right; each but the last one of a variable is shared.
    pub fn take_all(&mut self, operands: &[u32], slots: &[Slot]) -> Result<AllTaken, AllocError>
        ensures taken { IfOk result (λ taken. all_taken_of taken ≡ (two.take_all operands.now slots.now self.old.next).0) }
        ensures next { OnOk result (self.new.next ≡ (two.take_all operands.now slots.now self.old.next).1) }
    {
        let mut names = Vec::new(self.alloc);
        let mut shares = Vec::new(self.alloc);
        let mut left = Vec::from_slice(self.alloc, slots)?;
        for i in 0..operands.len() {
            let variable = operands[i];
            let again = among(variable, &operands[i + 1..]);
            let taken = self.take_slot(again, variable, &left)?;
            left = put(self.alloc, variable, &[], &taken.stay, &left)?;
            names.push(taken.name)?;
            shares.extend_from_slice(&taken.shares)?;
        }
        Ok(AllTaken { names, shares })
    }

    /// The slots of the two parts of a `Let`; what is free in both is shared.
    pub fn part<'a>(
        &mut self,
        bound: Marked<'a>,
        rest: Marked<'a>,
        slots: &[Slot],
    ) -> Result<Parted, AllocError>
        ensures parted { IfOk result (λ parted. parted_of parted ≡
            (two.part (form_in bound.entry) (form_in rest.entry) slots.now self.old.next).0) }
        ensures next { OnOk result (self.new.next ≡ (two.part (form_in bound.entry) (form_in rest.entry) slots.now self.old.next).1) }
    {
        let mut first = Vec::new(self.alloc);
        let mut second = Vec::new(self.alloc);
        let mut shares = Vec::new(self.alloc);
        for slot in slots {
            if !bound.has_free(slot.variable) {
                second.push(*slot)?;
            } else if !rest.has_free(slot.variable) {
                first.push(*slot)?;
            } else {
                let shared = Shared {
                    variable: slot.copy,
                    first: self.fresh()?,
                    second: self.fresh()?,
                };
                first.push(Slot {
                    variable: slot.variable,
                    copy: shared.first,
                })?;
                second.push(Slot {
                    variable: slot.variable,
                    copy: shared.second,
                })?;
                shares.push(shared)?;
            }
        }
        Ok(Parted {
            first,
            second,
            shares,
        })
    }
}
