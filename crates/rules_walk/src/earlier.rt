// The blocks before a task, as walks read them.
ghost use Rattle.std.specs.Prelude.{◌≡◌, ℕ, List, [], ◌∷◌, ◌++◌, length, map, replicate, None, option_map, IfOk, OnOk, OnErr};
ghost use Rattle.call_groups.specs.Read.{ids_of};
ghost use Rattle.annot_types.specs.Program.{Program, members};
ghost use Rattle.annot_types.specs.Certificate as c;
ghost use Rattle.annot_types.specs.Certificate.{sigs_of};
ghost use Rattle.annot_types.specs.Held.{IfSolved};
ghost use Rattle.annot_types.specs.Read.{sig_of, body_of, block_of};
ghost use Rattle.cost_free.specs.Read.{kind_of};
ghost use Rattle.rules_walk.specs.Filled.{table_of};
ghost use Rattle.rules_walk.specs.Read.{known_of, sides_of, signature_of};
ghost use Rattle.rules_walk.specs.Remembers.{Tables, free_at, cost_at, Remembers, Knows};
ghost use Rattle.rules_walk.specs.Sizes.{AreSizes};
ghost use Rattle.rules_walk.specs.Signed.{signatures, filled};
ghost use Rattle.annot_types.specs.Holds.{budget_of, raised};
ghost use Rattle.rules_walk.specs.Grows.{GrowsFree, GrowsPaying, Grows};
ghost use Rattle.rules_walk.specs.Raised.{NonePasses, Rises};

use crate::known::{Known, Sides, Signature, Signed};
use crate::plan::Usage;
use crate::raising::raise_all;
use crate::signatures::signatures;
use crate::tables::{fill_all, note_all};
use annot_types::{Block, BlockBody, Sig};
use cost_free::{Meter, TaskKind};
use raml_syntax::FunId;
use std::alloc::{AllocError, Global};
use std::marker::Model;

/// What is kept of the blocks of a certificate, from its first block on.
#[derive(Drop)]
pub struct Earlier {
    free: Vec<Vec<Signed>>,
    usable: Vec<Vec<Usage>>,
    ticks: Vec<Option<Signature>>,
    cells: Vec<Option<Signature>>,
    work: Vec<Option<Signature>>,
}

impl Model for Earlier {
    ghost use Rattle.std.specs.Prelude.{map};
    ghost use Rattle.rules_walk.specs.Remembers.{Tables};

    ghost Value = { Tables };

    ghost view = { λ e. record {
      free = map (λ ss. ss.items) e.free.items;
      usable = map (λ us. us.items) e.usable.items;
      ticks = e.ticks.items;
      cells = e.cells.items;
      work = e.work.items;
    } };
}

// What a solved block has; none where it is not solved.
fn sigs_of(body: &BlockBody) -> &[Sig]
    ensures { map sig_of result.now ≡ sigs_of (body_of body.now) }
{
    match body {
        BlockBody::Solved { sigs, .. } => sigs,
        BlockBody::Refuted { .. } | BlockBody::Calls { .. } => &[],
    }
}

// For each function no block.
fn none_noted(alloc: Global, functions: usize) -> Result<Vec<Vec<Usage>>, AllocError>
    ensures { IfOk result (λ made. map (λ us. us.items) made.items ≡ replicate functions []) }
{
    let mut made = Vec::with_capacity(alloc, functions)?;
    for _ in 0..functions {
        made.push(Vec::new(alloc))?;
    }
    Ok(made)
}

// For each function no signature.
fn none_paying(alloc: Global, functions: usize) -> Result<Vec<Option<Signature>>, AllocError>
    ensures { IfOk result (λ made. made.items ≡ replicate functions None) }
{
    let mut made = Vec::with_capacity(alloc, functions)?;
    for _ in 0..functions {
        made.push(None)?;
    }
    Ok(made)
}

impl Earlier {
    /// No blocks yet, of a program with so many functions.
    pub fn new(alloc: Global, functions: usize) -> Result<Earlier, AllocError>
        ensures { IfOk result (λ made. (P : Program) (d : ℕ) → length P.funs ≡ functions → Remembers P d [] made) }
    {
        let usable = none_noted(alloc, functions)?;
        let ticks = none_paying(alloc, functions)?;
        let cells = none_paying(alloc, functions)?;
        let work = none_paying(alloc, functions)?;
        Ok(Earlier {
            free: Vec::new(alloc),
            usable,
            ticks,
            cells,
            work,
        })
    }

    /// One block more, in an analysis of this degree. `functions` are those of its group, and
    /// `sizes` how many positions the arguments and the result of each have at its budget; they are
    /// looked at where the block is solved.
    ///
    /// Where memory is wanting, nothing is changed.
    pub fn add(
        &mut self,
        alloc: Global,
        degree: u8,
        block: &Block,
        functions: &[FunId],
        sizes: &[(usize, usize)],
    ) -> Result<(), AllocError>
        ensures all { OnOk result ((P : Program) (earlier : List c.Block) →
            ids_of functions.now ≡ members P block.now.task.group →
            IfSolved (body_of block.now.body)
            (AreSizes P (budget_of degree (kind_of block.now.task.kind)) (members P block.now.task.group) sizes.now) →
            Remembers P degree earlier self.old → Remembers P degree (earlier ++ block_of block.now ∷ []) self.new) }
        ensures kept { OnErr result (self.new ≡ self.old) }
    {
        let sigs = sigs_of(&block.body);
        self.grow(alloc, degree, block.task.kind, functions, sizes, sigs)
    }

    fn grow(
        &mut self,
        alloc: Global,
        degree: u8,
        kind: TaskKind,
        functions: &[FunId],
        sizes: &[(usize, usize)],
        sigs: &[Sig],
    ) -> Result<(), AllocError>
        ensures grows { OnOk result (Grows (ids_of functions.now) sizes.now (map sig_of sigs.now) degree (kind_of kind) self.old self.new) }
        ensures kept { OnErr result (self.new ≡ self.old) }
    {
        match kind {
            TaskKind::Free { budget, .. } => self.grow_free(alloc, budget, functions, sizes, sigs),
            TaskKind::With(meter) => self.grow_paying(alloc, degree, meter, functions, sizes, sigs),
        }
    }

    // By a block without cost.
    fn grow_free(
        &mut self,
        alloc: Global,
        budget: u8,
        functions: &[FunId],
        sizes: &[(usize, usize)],
        sigs: &[Sig],
    ) -> Result<(), AllocError>
        ensures grows { OnOk result (GrowsFree (ids_of functions.now) sizes.now (map sig_of sigs.now) budget self.old self.new) }
        ensures kept { OnErr result (self.new ≡ self.old) }
    {
        // so many blocks have no room in memory
        let Ok(block) = u32::try_from(self.free.len()) else {
            return Err(AllocError);
        };
        let signed = signatures(alloc, budget, functions, sizes, sigs)?;
        self.free.reserve(1)?;
        note_all(&mut self.usable, &signed, 0, Usage { block, budget })?;
        self.free.push_reserved(signed);
        Ok(())
    }

    // By a block with cost.
    fn grow_paying(
        &mut self,
        alloc: Global,
        degree: u8,
        meter: Meter,
        functions: &[FunId],
        sizes: &[(usize, usize)],
        sigs: &[Sig],
    ) -> Result<(), AllocError>
        ensures grows { OnOk result (GrowsPaying (ids_of functions.now) sizes.now (map sig_of sigs.now) degree meter self.old self.new) }
        ensures kept { OnErr result (self.new ≡ self.old) }
    {
        let signed = signatures(alloc, degree, functions, sizes, sigs)?;
        self.free.push(Vec::new(alloc))?;
        match meter {
            Meter::Ticks => fill_all(&mut self.ticks, signed),
            Meter::Cells => fill_all(&mut self.cells, signed),
            Meter::Work => fill_all(&mut self.work, signed),
        }
        Ok(())
    }

    /// The blocks of the meter are multiplied. A product that leaves 128 bits stands at the greatest
    /// number of 128 bits, and walks hear the same.
    pub fn raise(&mut self, meter: Meter, factor: u128)
        ensures uses { self.new.usable ≡ self.old.usable }
        ensures remembers { (P : Program) (degree : ℕ) (earlier : List c.Block) → NonePasses P meter factor earlier →
            Remembers P degree earlier self.old → Remembers P degree (map (raised meter factor) earlier) self.new }
        ensures knows { (P : Program) (degree : ℕ) (earlier : List c.Block) → Remembers P degree earlier self.old →
            Knows P degree (map (raised meter factor) earlier) self.new }
    {
        self.rise(meter, factor);
    }

    fn rise(&mut self, meter: Meter, factor: u128)
        ensures { Rises meter factor self.old self.new }
    {
        match meter {
            Meter::Ticks => raise_all(&mut self.ticks, factor),
            Meter::Cells => raise_all(&mut self.cells, factor),
            Meter::Work => raise_all(&mut self.work, factor),
        }
    }

    /// For each function the blocks whose signatures a call of it may take multiples of, by ascending number.
    pub fn uses(&self) -> &[Vec<Usage>]
        ensures { table_of result.now ≡ self.now.usable }
    {
        &self.usable
    }

    /// What a walk knows at this scale, in a block of this budget with these signatures of its group.
    pub fn known<'a, T>(&'a self, scale: u128, budget: usize, group: &'a [Sides<T>]) -> Known<'a, T>
        ensures { known_of result
            ≡ record { scale = scale; budget = budget; group = map sides_of group.now; free = free_at self.now; cost = cost_at self.now } }
    {
        Known {
            scale,
            budget,
            group,
            free: &self.free,
            ticks: &self.ticks,
            cells: &self.cells,
            work: &self.work,
        }
    }
}
