// Certificates of small numbers, no total of which can leave 127 bits.
ghost use Rattle.std.specs.Prelude.{◌≡◌, ◌≤◌, IsTrue, All, map};
ghost use Rattle.annot_types.specs.Held.{IfSolved};
ghost use Rattle.annot_types.specs.Program.{Program};
ghost use Rattle.annot_types.specs.Read as a;
ghost use Rattle.annot_types.specs.Read.{certificate_of, blocks_of};
ghost use Rattle.cost_free.specs.Read.{kind_of};
ghost use Rattle.annot_types.specs.Holds as h;
ghost use Rattle.rules_plan.specs.Read.{function_of, AreKept};
ghost use Rattle.rules_spec.specs.Small.{GrowthsWithin};
ghost use Rattle.cert_check.specs.Limits.{factor, greatest, EntriesSmall, AnnotsSmall, SigSmall, SigsSmall, HintSmall, HintsSmall};
ghost use Rattle.cert_check.specs.Limits.{AllHintsSmall, BodySmall, BlocksSmall, ScalesSmall, StaysSmall, AllStay, MakeLittle, IsAmong};

use crate::at::budget_of;
use annot_types::{Annot, Block, BlockBody, Certificate, Hint, Sig};
use rules_plan::{FunctionPlan, GroupPlans, KeptPlans};
use rules_walk::growth;
use std::alloc::Global;

// What small numbers are at most.
const MOST: u128 = 1 << 16;

// What multiples of signatures make of small numbers.
const FACTOR: u128 = 1 + MOST * MOST;

// What plans may make of small numbers.
const GREATEST: u128 = 1 << 110;

fn entries_small(entries: &[(u32, i128)]) -> bool
    ensures { IsTrue result → EntriesSmall entries.now }
{
    for (_, number) in entries {
        if number.unsigned_abs() > MOST {
            return false;
        }
    }
    true
}

fn annots_small(annots: &[Annot]) -> bool
    ensures { IsTrue result → AnnotsSmall annots.now }
{
    for annot in annots {
        if !entries_small(annot.entries()) {
            return false;
        }
    }
    true
}

fn sig_small(sig: &Sig) -> bool
    ensures { IsTrue result → SigSmall (a.sig_of sig.now) }
{
    entries_small(sig.args.entries()) && entries_small(sig.result.entries())
}

fn sigs_small(sigs: &[Sig]) -> bool
    ensures { IsTrue result → SigsSmall (map a.sig_of sigs.now) }
{
    for sig in sigs {
        if !sig_small(sig) {
            return false;
        }
    }
    true
}

fn hint_small(hint: &Hint) -> bool
    ensures { IsTrue result → HintSmall (a.hint_of hint.now) }
{
    match hint {
        Hint::Let(results) => annots_small(results),
        Hint::Share(copies) => entries_small(copies.entries()),
        Hint::Call(multiples) => multiples.len() as u128 <= MOST && entries_small(multiples),
    }
}

fn hints_small(hints: &[Hint]) -> bool
    ensures { IsTrue result → HintsSmall (map a.hint_of hints.now) }
{
    for hint in hints {
        if !hint_small(hint) {
            return false;
        }
    }
    true
}

fn all_hints_small(lists: &[Vec<Hint>]) -> bool
    ensures { IsTrue result → AllHintsSmall (map a.hints_of lists.now) }
{
    for hints in lists {
        if !hints_small(hints) {
            return false;
        }
    }
    true
}

fn body_small(body: &BlockBody) -> bool
    ensures { IsTrue result → BodySmall (a.body_of body.now) }
{
    match body {
        BlockBody::Solved { sigs, hints } => sigs_small(sigs) && all_hints_small(hints),
        BlockBody::Refuted { .. } | BlockBody::Calls { .. } => true,
    }
}

fn blocks_small(blocks: &[Block]) -> bool
    ensures { IsTrue result → BlocksSmall (blocks_of blocks.now) }
{
    for block in blocks {
        if !body_small(&block.body) {
            return false;
        }
    }
    true
}

fn scales_small(certificate: &Certificate) -> bool
    ensures { IsTrue result → ScalesSmall (certificate_of certificate.now) }
{
    let work = certificate.work_scale.unwrap_or(1);
    certificate.ticks_scale.unsigned_abs() <= MOST
        && certificate.cells_scale.unsigned_abs() <= MOST
        && work.unsigned_abs() <= MOST
}

// What the plans of these functions make of small numbers stays in the range.
fn functions_stay(alloc: Global, functions: &[FunctionPlan]) -> bool
    ensures { IsTrue result → GrowthsWithin factor greatest (map function_of functions.now) }
{
    for function in functions {
        match growth(alloc, &function.plan, FACTOR) {
            Some(times) if times <= GREATEST => {}
            _ => return false,
        }
    }
    true
}

// What all of these plans make of small numbers does.
fn plans_stay(alloc: Global, made: &[GroupPlans]) -> bool
    ensures { IsTrue result → All MakeLittle made.now }
{
    for plans in made {
        if !functions_stay(alloc, &plans.functions) {
            return false;
        }
    }
    true
}

// The plans of a group at a budget are among these.
fn are_among(made: &[GroupPlans], group: u32, budget: u8) -> bool
    ensures { IsTrue result → IsAmong group budget made.now }
{
    for plans in made {
        if plans.group == group && plans.budget == budget {
            return true;
        }
    }
    false
}

// They are kept. Plans are mostly kept in the order of their groups.
fn are_kept(kept: &KeptPlans, group: u32, budget: u8) -> bool
    ensures { IsTrue result → IsAmong group budget kept.now.made.items }
{
    let first = kept.made.partition_point(|plans| plans.group < group);
    are_among(&kept.made[first..], group, budget) || are_among(&kept.made, group, budget)
}

// The plans of a block that is solved are kept.
fn has_plans(kept: &KeptPlans, d: u8, block: &Block) -> bool
    ensures { IsTrue result → IfSolved (a.block_of block.now).body
        (IsAmong block.now.task.group (h.budget_of d (kind_of block.now.task.kind)) kept.now.made.items) }
{
    match block.body {
        BlockBody::Solved { .. } => are_kept(kept, block.task.group, budget_of(d, block.task.kind)),
        BlockBody::Refuted { .. } | BlockBody::Calls { .. } => true,
    }
}

fn blocks_stay(kept: &KeptPlans, d: u8, blocks: &[Block]) -> bool
    ensures { IsTrue result → All MakeLittle kept.now.made.items → (P : Program) → AreKept P kept.now → AllStay P d (blocks_of blocks.now) }
{
    for block in blocks {
        if !has_plans(kept, d, block) {
            return false;
        }
    }
    true
}

/// Whether the certificate's numbers are small, and the plans that are kept make little of them. Then no
/// total leaves 127 bits.
pub fn stays_small(alloc: Global, certificate: &Certificate, kept: &KeptPlans) -> bool
    ensures { IsTrue result → (P : Program) → AreKept P kept.now → StaysSmall P (certificate_of certificate.now) }
{
    scales_small(certificate)
        && blocks_small(&certificate.blocks)
        && plans_stay(alloc, &kept.made)
        && blocks_stay(kept, certificate.degree, &certificate.blocks)
}
