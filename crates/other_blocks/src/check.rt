// The check of another block of a task.
ghost use Rattle.std.specs.Prelude.{◌≡◌, ◌≤◌, ◌<◌, ◌<ℤ◌, ◌*◌, ℕ, pos, unsigned_abs, List, [], map, length, Some, None, IsSome, IfOk, OnOk};
ghost use Rattle.std.specs.Prelude.{IfErr};
ghost use Rattle.std.specs.Option.{unwrap_or};
ghost use Rattle.cost_free.specs.declared.task.Meter.{Meter as Counted};
ghost use Rattle.cost_free.specs.Read.{kind_of, task_of};
ghost use Rattle.cost_free.specs.Task.{With};
ghost use Rattle.annot_types.specs.Program.{Program};
ghost use Rattle.annot_types.specs.Certificate as c;
ghost use Rattle.annot_types.specs.Certificate.{IsSolved};
ghost use Rattle.annot_types.specs.Held.{before, scale_for};
ghost use Rattle.annot_types.specs.Holds.{raised, blocks_before, budget_of};
ghost use Rattle.annot_types.specs.Read as a;
ghost use Rattle.annot_types.specs.Read.{certificate_of};
ghost use Rattle.rules_spec.specs.Capped.{cap};
ghost use Rattle.rules_spec.specs.Faults.{too_great};
ghost use Rattle.rules_walk.specs.Remembers.{Remembers, Knows};
ghost use Rattle.rules_plan.specs.Read.{program_in, ArePlansOf};
ghost use Rattle.cert_check.specs.At.{Tells};
ghost use Rattle.cert_check.specs.Fault.{Leaves, TooLarge};
ghost use Rattle.cert_check.specs.Finds.{AreWithin};
ghost use Rattle.cert_check.specs.Read.{fault_of, OfFault};
ghost use Rattle.other_blocks.specs.Raised.{raised_for};
ghost use Rattle.other_blocks.specs.Other.{place_among, IsOwn, ThereFinds, RaisedFinds, OtherFinds};
ghost use Rattle.other_blocks.specs.Laws.{IsOther};

use crate::block::{OtherBlock, keep};
use crate::place::{is_tried, place_of};
use crate::remembering::tables;
use annot_types::{Block, BlockBody, Certificate};
use cert_check::{At, CertFault, Checked, budget_of, check_planned, scale_for};
use cost_free::{Meter, Task, TaskKind};
use rules_plan::{GroupPlans, PlanFault, group_plans};
use rules_walk::Earlier;
use share_normal::NormProgram;
use smallvec::SmallVec;
use std::alloc::Global;

// The blocks of a meter are multiplied. Where that changes none of them, the tables stay as they are.
fn raise_meter(earlier: &mut Earlier, meter: Meter, times: u128)
    ensures uses { earlier.new.usable ≡ earlier.old.usable }
    ensures knows { (P : Program) (degree : ℕ) (blocks : List c.Block) → Remembers P degree blocks earlier.old →
        Knows P degree (map (raised meter times) blocks) earlier.new }
    ensures once { times ≡ 1 → earlier.new ≡ earlier.old }
{
    if times != 1 {
        earlier.raise(meter, times);
    }
}

// The blocks of the task's meter are multiplied; none of them is where it is one without cost.
fn raise_for(earlier: &mut Earlier, kind: TaskKind, times: u128)
    ensures uses { earlier.new.usable ≡ earlier.old.usable }
    ensures knows { (P : Program) (degree : ℕ) (blocks : List c.Block) → Remembers P degree blocks earlier.old →
        Knows P degree (blocks_before (kind_of kind) times blocks) earlier.new }
    ensures once { times ≡ 1 → earlier.new ≡ earlier.old }
{
    match kind {
        TaskKind::Free { .. } => {}
        TaskKind::With(meter) => raise_meter(earlier, meter, times),
    }
}

// The scale of the task's meter is. One that leaves 128 bits stands at the greatest number of 128 bits.
fn scale_times(certificate: &Certificate, kind: TaskKind, times: u128) -> u128
    ensures { cap result ≡ cap (scale_for (raised_for times (certificate_of certificate.now) (kind_of kind)) (kind_of kind)) }
{
    let scale = scale_for(certificate, kind);
    match kind {
        TaskKind::Free { .. } => scale,
        TaskKind::With(_) => scale.saturating_mul(times),
    }
}

// The check of a block that has these plans, over tables that are raised here.
fn check_over(
    alloc: Global,
    program: &NormProgram<'_>,
    certificate: &Certificate,
    place: usize,
    block: &Block,
    times: u128,
    plans: &GroupPlans,
    earlier: &mut Earlier,
) -> Result<(), CertFault>
    requires solved { IsSolved (a.body_of block.now.body) }
    requires place { place ≡ unwrap_or (place_among (task_of block.now.task) (a.blocks_of certificate.now.blocks.items)) 0 }
    requires there { place < length certificate.now.blocks.items }
    requires remembers { Remembers (program_in program.now) certificate.now.degree
        (before (certificate_of certificate.now) place) earlier.old }
    requires plans { ArePlansOf (program_in program.now) block.now.task.group
        (budget_of certificate.now.degree (kind_of block.now.task.kind)) plans.now }
    ensures tells { Tells result (ThereFinds (program_in program.now) (certificate_of certificate.now) times (a.block_of block.now)) }
    ensures once { times ≡ 1 → earlier.new ≡ earlier.old }
{
    let _source = program.source();
    let _groups = program.groups();
    raise_for(earlier, block.task.kind, times);
    let at = At {
        alloc,
        program,
        degree: certificate.degree,
        scale: scale_times(certificate, block.task.kind, times),
        earlier: &*earlier,
        number: place,
        task: block.task,
    };
    let BlockBody::Solved { sigs, hints } = &block.body else {
        unreachable!()
    };
    let Ok(bodies) = plans.over(alloc, earlier) else {
        return Err(CertFault::NoMemory);
    };
    match check_planned(&at, &bodies, sigs, hints) {
        Ok(_) => Ok(()),
        Err(fault) => Err(fault),
    }
}

// The scale, where it fits 128 bits with a sign.
fn fitting(alloc: Global, scale: u128, place: usize) -> Result<i128, CertFault>
    ensures fits { IfOk result (λ fits. (fits ≡ pos scale) × (scale < too_great)) }
    ensures leaves { IfErr result (λ fault. (fault_of fault ≡ Some (Leaves place [] 0)) × (scale < too_great → ⊥)) }
{
    match i128::try_from(scale) {
        Ok(scale) => Ok(scale),
        Err(_) => Err(CertFault::Leaves {
            block: place,
            path: SmallVec::new(alloc),
            index: 0,
        }),
    }
}

// The check of a block that has these plans, over tables that are raised here; its scale.
fn check_raised(
    alloc: Global,
    program: &NormProgram<'_>,
    certificate: &Certificate,
    place: usize,
    block: &Block,
    times: u128,
    plans: &GroupPlans,
    earlier: &mut Earlier,
) -> Result<i128, CertFault>
    requires solved { IsSolved (a.body_of block.now.body) }
    requires cost { (meter : Counted) × (kind_of block.now.task.kind ≡ With meter) }
    requires place { place ≡ unwrap_or (place_among (task_of block.now.task) (a.blocks_of certificate.now.blocks.items)) 0 }
    requires there { place < length certificate.now.blocks.items }
    requires remembers { Remembers (program_in program.now) certificate.now.degree
        (before (certificate_of certificate.now) place) earlier.old }
    requires plans { ArePlansOf (program_in program.now) block.now.task.group
        (budget_of certificate.now.degree (kind_of block.now.task.kind)) plans.now }
    ensures tells { Tells result (RaisedFinds (program_in program.now) (certificate_of certificate.now) times (a.block_of block.now)) }
    ensures scale { IfOk result (λ scale. scale ≡ pos (scale_for (certificate_of certificate.now) (kind_of block.now.task.kind) * times)) }
    ensures once { times ≡ 1 → earlier.new ≡ earlier.old }
{
    match check_over(
        alloc,
        program,
        certificate,
        place,
        block,
        times,
        plans,
        earlier,
    ) {
        Err(fault) => Err(fault),
        Ok(()) => fitting(
            alloc,
            scale_times(certificate, block.task.kind, times),
            place,
        ),
    }
}

/// As `other`, where the plans of the block's group and the tables of the blocks before its place are made
/// already. The place is that of the certificate's block of its task, which was tried.
///
/// The tables are multiplied by the factor, too. Where it is 1 they serve again.
pub fn other_by<'p, 'a>(
    alloc: Global,
    checked: &Checked<'p, 'a>,
    place: usize,
    block: Block,
    times: i128,
    plans: &GroupPlans,
    earlier: &mut Earlier,
) -> Result<OtherBlock<'p, 'a>, CertFault>
    requires positive { pos 0 <ℤ times }
    requires solved { IsSolved (a.body_of block.body) }
    requires cost { (meter : Counted) × (kind_of block.task.kind ≡ With meter) }
    requires own { IsOwn checked.now.certificate (task_of block.task) place }
    requires plans { ArePlansOf (program_in checked.now.program) block.task.group
        (budget_of checked.now.certificate.degree (kind_of block.task.kind)) plans.now }
    requires remembers { Remembers (program_in checked.now.program) checked.now.certificate.degree
        (before checked.now.certificate place) earlier.old }
    ensures fits { OnOk result
        (OtherFinds (program_in checked.now.program) checked.now.certificate (unsigned_abs times) (a.block_of block) None) }
    ensures valid { OnOk result (IsOther (program_in checked.now.program) checked.now.certificate (unsigned_abs times) (a.block_of block)) }
    ensures kept { IfOk result (λ other. other ≡ record {
      program = checked.now.program;
      degree = checked.now.certificate.degree;
      scale = scale_for checked.now.certificate (kind_of block.task.kind) * unsigned_abs times;
      block = a.block_of block;
    }) }
    ensures fault { IfErr result (λ fault. OfFault (fault_of fault)
        (OtherFinds (program_in checked.now.program) checked.now.certificate (unsigned_abs times) (a.block_of block))) }
    ensures invalid { IfErr result (λ fault. OfFault (fault_of fault)
        (λ _. IsOther (program_in checked.now.program) checked.now.certificate (unsigned_abs times) (a.block_of block) → ⊥)) }
    ensures once { times ≡ pos 1 → earlier.new ≡ earlier.old }
{
    let program = checked.program();
    let certificate = checked.certificate();
    let _source = program.source();
    let _functions = program.functions();
    let _groups = program.groups();
    let times = times.unsigned_abs();
    match check_raised(
        alloc,
        program,
        certificate,
        place,
        &block,
        times,
        plans,
        earlier,
    ) {
        Err(fault) => Err(fault),
        Ok(scale) => Ok(keep(program, certificate.degree, scale, block)),
    }
}

// The plans of a task's group.
fn plans_for(
    alloc: Global,
    program: &NormProgram<'_>,
    certificate: &Certificate,
    task: Task,
) -> Result<GroupPlans, CertFault>
    requires low { certificate.now.degree ≤ 4 }
    requires cost { (meter : Counted) × (kind_of task.kind ≡ With meter) }
    ensures plans { IfOk result (ArePlansOf (program_in program.now) task.group (budget_of certificate.now.degree (kind_of task.kind))) }
    ensures large { IfErr result (λ fault. OfFault (fault_of fault) (λ found.
        (found ≡ Some (TooLarge (task_of task)))
        × (AreWithin (program_in program.now) (certificate_of certificate.now) (task_of task) → ⊥))) }
{
    let budget = budget_of(certificate.degree, task.kind);
    match group_plans(alloc, program, task.group, budget) {
        Ok(plans) => Ok(plans),
        Err(PlanFault::TooMany) => Err(CertFault::TooLarge { task }),
        Err(PlanFault::NoMemory) => Err(CertFault::NoMemory),
    }
}

// As `other`, in the place of a block that was tried.
fn other_there<'p, 'a>(
    alloc: Global,
    checked: &Checked<'p, 'a>,
    place: usize,
    block: Block,
    times: i128,
) -> Result<OtherBlock<'p, 'a>, CertFault>
    requires positive { pos 0 <ℤ times }
    requires solved { IsSolved (a.body_of block.body) }
    requires cost { (meter : Counted) × (kind_of block.task.kind ≡ With meter) }
    requires own { IsOwn checked.now.certificate (task_of block.task) place }
    ensures fits { OnOk result
        (OtherFinds (program_in checked.now.program) checked.now.certificate (unsigned_abs times) (a.block_of block) None) }
    ensures valid { OnOk result (IsOther (program_in checked.now.program) checked.now.certificate (unsigned_abs times) (a.block_of block)) }
    ensures kept { IfOk result (λ other. other ≡ record {
      program = checked.now.program;
      degree = checked.now.certificate.degree;
      scale = scale_for checked.now.certificate (kind_of block.task.kind) * unsigned_abs times;
      block = a.block_of block;
    }) }
    ensures fault { IfErr result (λ fault. OfFault (fault_of fault)
        (OtherFinds (program_in checked.now.program) checked.now.certificate (unsigned_abs times) (a.block_of block))) }
    ensures invalid { IfErr result (λ fault. OfFault (fault_of fault)
        (λ _. IsOther (program_in checked.now.program) checked.now.certificate (unsigned_abs times) (a.block_of block) → ⊥)) }
{
    let program = checked.program();
    let certificate = checked.certificate();
    let Ok(mut earlier) = tables(alloc, program, certificate, place) else {
        return Err(CertFault::NoMemory);
    };
    match plans_for(alloc, program, certificate, block.task) {
        Err(fault) => Err(fault),
        Ok(plans) => other_by(alloc, checked, place, block, times, &plans, &mut earlier),
    }
}

/// The block in the place of the certificate's block of its task, over the blocks before that one, where
/// the numbers of those of its meter and the meter's scale are multiplied; otherwise its first fault there.
pub fn other<'p, 'a>(
    alloc: Global,
    checked: &Checked<'p, 'a>,
    block: Block,
    times: i128,
) -> Result<OtherBlock<'p, 'a>, CertFault>
    requires positive { pos 0 <ℤ times }
    requires solved { IsSolved (a.body_of block.body) }
    requires cost { (meter : Counted) × (kind_of block.task.kind ≡ With meter) }
    requires there { IsSome (place_among (task_of block.task) checked.now.certificate.blocks) }
    ensures fits { OnOk result
        (OtherFinds (program_in checked.now.program) checked.now.certificate (unsigned_abs times) (a.block_of block) None) }
    ensures valid { OnOk result (IsOther (program_in checked.now.program) checked.now.certificate (unsigned_abs times) (a.block_of block)) }
    ensures kept { IfOk result (λ other. other ≡ record {
      program = checked.now.program;
      degree = checked.now.certificate.degree;
      scale = scale_for checked.now.certificate (kind_of block.task.kind) * unsigned_abs times;
      block = a.block_of block;
    }) }
    ensures fault { IfErr result (λ fault. OfFault (fault_of fault)
        (OtherFinds (program_in checked.now.program) checked.now.certificate (unsigned_abs times) (a.block_of block))) }
    ensures invalid { IfErr result (λ fault. OfFault (fault_of fault)
        (λ _. IsOther (program_in checked.now.program) checked.now.certificate (unsigned_abs times) (a.block_of block) → ⊥)) }
{
    let certificate = checked.certificate();
    let Some(place) = place_of(&block.task, &certificate.blocks) else {
        unreachable!()
    };
    if !is_tried(&certificate.blocks[place].body) {
        return Err(CertFault::Shape { block: place });
    }
    other_there(alloc, checked, place, block, times)
}
