// The rows of a walk.
ghost use Rattle.std.specs.Prelude.{◌≡◌, ℕ, List, [], IfOk, OnOk};
ghost use Rattle.rules_spec.specs.Walk.{against, numbered};
ghost use Rattle.constraint_gen.specs.Sums.{sums};
ghost use Rattle.constraint_gen.specs.Heard.{hear, hear_all};

use crate::form::Form;
use crate::row::{is_kept, row_of};
use linear_rows::Row;
use rules_walk::{Judge, Kind};
use std::alloc::{AllocError, Global};
use std::marker::Model;

/// The rows over so many unknowns of the conditions that were heard, but for those that say nothing, and
/// no more than 2001 of them; none stands for a row that leaves 128 bits.
#[derive(Drop)]
pub struct Collector {
    unknowns: u32,
    rows: Vec<Option<Row>>,
}

impl Model for Collector {
    ghost use Rattle.constraint_gen.specs.Heard.{Heard};

    ghost Value = { Heard };

    ghost view = { λ c. record { unknowns = c.unknowns; rows = c.rows.items } };
}

impl Collector {
    /// No rows yet, and room for as many as there are unknowns.
    pub fn new(alloc: Global, unknowns: u32) -> Result<Collector, AllocError>
        ensures { IfOk result (λ made. made ≡ record { unknowns = unknowns; rows = [] }) }
    {
        Ok(Collector {
            unknowns,
            rows: Vec::with_capacity(alloc, unknowns as usize)?,
        })
    }

    /// The rows.
    pub fn into_rows(self) -> Vec<Option<Row>>
        ensures { result.items ≡ self.rows }
    {
        self.rows
    }

    /// One condition more.
    pub fn take(&mut self, alloc: Global, left: &Form, right: &Form) -> Result<(), AllocError>
        ensures { OnOk result (self.new ≡ hear self.old (record { path = []; index = 0; left = left.now; right = right.now })) }
    {
        if self.rows.len() <= 2000 && is_kept(self.unknowns, left, right) {
            let row = row_of(alloc, self.unknowns, left, right)?;
            self.rows.push(row)?;
        }
        Ok(())
    }

    // Each entry on the right with the one at its place on the left.
    fn take_all(&mut self, alloc: Global, left: &[Form], right: &[Form]) -> Result<(), AllocError>
        ensures { OnOk result ((path : List ℕ) (index : ℕ) →
            self.new ≡ hear_all self.old (numbered path index (against sums left.now right.now))) }
    {
        let none = Form::none(alloc);
        for place in 0..right.len() {
            let entry = left.get(place).unwrap_or(&none);
            self.take(alloc, entry, &right[place])?;
        }
        Ok(())
    }
}

impl Judge<Form> for Collector {
    ghost use Rattle.constraint_gen.specs.Heard.{Heard, hear_all};
    ghost use Rattle.constraint_gen.specs.Hearing.{silent, in_turn};

    ghost Verdict = { Heard };

    ghost verdict = { λ c. c };

    ghost after = { hear_all };

    fn hear(
        &mut self,
        alloc: Global,
        path: &[u32],
        index: usize,
        left: &[Form],
        right: &[Form],
    ) -> Result<(), AllocError>
        ensures { OnOk result (self.new ≡ hear_all self.old (numbered path.now index (against sums left.now right.now))) }
    {
        self.take_all(alloc, left, right)?;
        Ok(())
    }

    ghost silent = { silent };

    ghost in_turn = { in_turn };
}
