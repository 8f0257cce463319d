// Tasks that are solved, and tasks that are refuted.
ghost use Rattle.std.specs.Prelude.{◌≡◌, ◌≤◌, ℕ, ℤ, pos, unsigned_abs, List, length, Option, map, Some, IfOk, IfErr, OnOk};
ghost use Rattle.raml_num.specs.Sums.{NoneNegative};
ghost use Rattle.cost_free.specs.Read.{task_of, kind_of};
ghost use Rattle.cost_free.specs.Task.{With};
ghost use Rattle.annot_types.specs.Certificate as c;
ghost use Rattle.annot_types.specs.Read as a;
ghost use Rattle.annot_types.specs.Holds.{budget_of};
ghost use Rattle.rules_spec.specs.Told.{bodies_of, sigs_told, hints_told};
ghost use Rattle.rules_plan.specs.Read.{program_in, function_of, ArePlansOf};
ghost use Rattle.constraint_gen.specs.Given.{unknowns_of};
ghost use Rattle.cert_check.specs.At.{sizes_of};
ghost use Rattle.cert_check.specs.Finds.{next_after};
ghost use Rattle.infer_spec.specs.States.{State, raise as raise_state, with_block};
ghost use Rattle.infer_spec.specs.Listed.{listed};
ghost use Rattle.infer_spec.specs.Places.{RescaleLeaves};
ghost use Rattle.infer_spec.specs.Courses.{Has, after};
ghost use Rattle.bound_infer.specs.declared.fault.RaiseFault.TheVariants as r;
ghost use Rattle.bound_infer.specs.Keeping.{state_of, first_of, Keeps, Begins, analysis_in};
ghost use Rattle.bound_infer.specs.Found.{RaiseCause};

use crate::factor::Factor;
use crate::fault::RaiseFault;
use crate::leaves::LeavesAt;
use crate::raising::raise;
use crate::refusal::InferFault;
use crate::run::{Run, push};
use crate::vector::listed;
use annot_types::{Block, BlockBody, Hint, Sig};
use constraint_gen::told_by;
use cost_free::{Meter, Task, TaskKind};
use raml_syntax::FunId;
use rules_plan::{FunctionPlan, GroupPlans};
use share_normal::NormProgram;
use std::alloc::{AllocError, Global};

// Where a block leaves, or its meter's scale.
fn rescale(task: &Task, fault: RaiseFault) -> InferFault
    ensures { (t : ℕ) (st : State) → ((place : ℕ) → fault ≡ r.Leaves place → RescaleLeaves (kind_of task.now.kind) t st place) →
        RaiseCause (task_of task.now) t st result }
{
    match fault {
        RaiseFault::Leaves { block } => {
            InferFault::Leaves(LeavesAt::Rescale { task: *task, block })
        }
        RaiseFault::NoMemory => InferFault::NoMemory,
    }
}

// The blocks of a meter and its scale, multiplied.
fn raise_meter(
    alloc: Global,
    program: &NormProgram<'_>,
    d: u8,
    run: &mut Run<'_>,
    task: &Task,
    meter: Meter,
    factor: &Factor,
) -> Result<(), InferFault>
    requires keeps { Keeps program.now d run.old }
    requires kind { kind_of task.now.kind ≡ With meter }
    requires begins { Begins (state_of run.old) }
    ensures keeps { OnOk result (Keeps program.now d run.new) }
    ensures state { OnOk result (state_of run.new ≡ raise_state (kind_of task.now.kind) factor.now (state_of run.old)) }
    ensures fit { OnOk result ((place : ℕ) → RescaleLeaves (kind_of task.now.kind) factor.now (state_of run.old) place → ⊥) }
    ensures fault { IfErr result (RaiseCause (task_of task.now) factor.now (state_of run.old)) }
{
    let _value = factor.value();
    let scale = run.scales.of_meter(meter).value();
    if factor.is_one() {
        return Ok(());
    }
    match raise(alloc, &mut run.blocks, meter, scale, factor) {
        Err(fault) => Err(rescale(task, fault)),
        Ok(product) => {
            run.earlier.raise(meter, factor.size());
            run.scales.set(meter, Factor::new(product));
            Ok(())
        }
    }
}

// Those of a task's meter; nothing is raised for a task without cost.
fn raise_for(
    alloc: Global,
    program: &NormProgram<'_>,
    d: u8,
    run: &mut Run<'_>,
    task: &Task,
    factor: &Factor,
) -> Result<(), InferFault>
    requires keeps { Keeps program.now d run.old }
    requires begins { Begins (state_of run.old) }
    ensures keeps { OnOk result (Keeps program.now d run.new) }
    ensures state { OnOk result (state_of run.new ≡ raise_state (kind_of task.now.kind) factor.now (state_of run.old)) }
    ensures fit { OnOk result ((place : ℕ) → RescaleLeaves (kind_of task.now.kind) factor.now (state_of run.old) place → ⊥) }
    ensures fault { IfErr result (RaiseCause (task_of task.now) factor.now (state_of run.old)) }
{
    match task.kind {
        TaskKind::Free { .. } => Ok(()),
        TaskKind::With(meter) => raise_meter(alloc, program, d, run, task, meter, factor),
    }
}

// How many positions the functions have.
fn sizes(alloc: Global, functions: &[FunctionPlan]) -> Result<Vec<(usize, usize)>, AllocError>
    ensures { IfOk result (λ sizes. sizes.items ≡ sizes_of (map function_of functions.now)) }
{
    let mut sizes = Vec::with_capacity(alloc, functions.len())?;
    for function in functions {
        sizes.push((function.args, function.result))?;
    }
    Ok(sizes)
}

// A block whose group has these plans.
fn push_planned(
    alloc: Global,
    program: &NormProgram<'_>,
    d: u8,
    run: &mut Run<'_>,
    plans: &GroupPlans,
    block: Block,
) -> Result<(), AllocError>
    requires keeps { Keeps program.now d run.old }
    requires next { next_after (program_in program.now) (first_of d) (a.blocks_of run.old.blocks.items) ≡ Some (task_of block.task) }
    requires plans { ArePlansOf (program_in program.now) block.task.group (budget_of d (kind_of block.task.kind)) plans.now }
    ensures keeps { OnOk result (Keeps program.now d run.new) }
    ensures state { OnOk result (state_of run.new ≡ with_block (task_of block.task) (a.body_of block.body) (state_of run.old)) }
{
    let sizes = sizes(alloc, &plans.functions)?;
    push(alloc, program, d, run, block, &sizes)
}

// Raises what is to be raised, and puts a solved block behind it.
fn put(
    alloc: Global,
    program: &NormProgram<'_>,
    d: u8,
    run: &mut Run<'_>,
    plans: &GroupPlans,
    factor: &Factor,
    block: Block,
) -> Result<(), InferFault>
    requires keeps { Keeps program.now d run.old }
    requires begins { Begins (state_of run.old) }
    requires next { next_after (program_in program.now) (first_of d) (a.blocks_of run.old.blocks.items) ≡ Some (task_of block.task) }
    requires plans { ArePlansOf (program_in program.now) block.task.group (budget_of d (kind_of block.task.kind)) plans.now }
    ensures keeps { OnOk result (Keeps program.now d run.new) }
    ensures state { OnOk result (state_of run.new
        ≡ with_block (task_of block.task) (a.body_of block.body) (raise_state (kind_of block.task.kind) factor.now (state_of run.old))) }
    ensures fit { OnOk result ((place : ℕ) → RescaleLeaves (kind_of block.task.kind) factor.now (state_of run.old) place → ⊥) }
    ensures fault { IfErr result (RaiseCause (task_of block.task) factor.now (state_of run.old)) }
{
    match raise_for(alloc, program, d, run, &block.task, factor) {
        Err(fault) => Err(fault),
        Ok(()) => match push_planned(alloc, program, d, run, plans, block) {
            Ok(()) => Ok(()),
            Err(_) => Err(InferFault::NoMemory),
        },
    }
}

// The signatures and hints of a task that has this solution.
fn told(
    alloc: Global,
    program: &NormProgram<'_>,
    d: u8,
    run: &Run<'_>,
    task: &Task,
    plans: &GroupPlans,
    numbers: &[i128],
) -> Result<(Vec<Sig>, Vec<Vec<Hint>>), AllocError>
    requires keeps { Keeps program.now d run.now }
    requires plans { ArePlansOf (program_in program.now) task.now.group (budget_of d (kind_of task.now.kind)) plans.now }
    requires one_each { length numbers.now
        ≡ unknowns_of (bodies_of (program_in program.now) d (a.blocks_of run.now.blocks.items) (task_of task.now)) }
    requires few { length numbers.now ≤ 2000 }
    requires natural { NoneNegative numbers.now }
    ensures sigs { IfOk result (λ told. map a.sig_of told.0.items
        ≡ sigs_told (bodies_of (program_in program.now) d (a.blocks_of run.now.blocks.items)
        (task_of task.now)) (map unsigned_abs numbers.now)) }
    ensures hints { IfOk result (λ told. map a.hints_of told.1.items
        ≡ hints_told (bodies_of (program_in program.now) d (a.blocks_of run.now.blocks.items)
        (task_of task.now)) (map unsigned_abs numbers.now)) }
{
    let bodies = plans.over(alloc, &run.earlier)?;
    told_by(alloc, &bodies, numbers)
}

/// The block of a task that has this solution, over the factor.
pub(crate) fn solved(
    alloc: Global,
    program: &NormProgram<'_>,
    d: u8,
    run: &mut Run<'_>,
    task: &Task,
    plans: &GroupPlans,
    factor: &Factor,
    numbers: &[i128],
) -> Result<(), InferFault>
    requires keeps { Keeps program.now d run.old }
    requires begins { Begins (state_of run.old) }
    requires next { next_after (program_in program.now) (first_of d) (a.blocks_of run.old.blocks.items) ≡ Some (task_of task.now) }
    requires plans { ArePlansOf (program_in program.now) task.now.group (budget_of d (kind_of task.now.kind)) plans.now }
    requires one_each { length numbers.now
        ≡ unknowns_of (bodies_of (program_in program.now) d (a.blocks_of run.old.blocks.items) (task_of task.now)) }
    requires few { length numbers.now ≤ 2000 }
    requires natural { NoneNegative numbers.now }
    ensures keeps { OnOk result (Keeps program.now d run.new) }
    ensures state { OnOk result ((pick : List ℤ → ℤ → Option ℕ) → state_of run.new
        ≡ after (analysis_in program.now d pick) (task_of task.now) (Has factor.now (map unsigned_abs numbers.now)) (state_of run.old)) }
    ensures fit { OnOk result ((place : ℕ) → RescaleLeaves (kind_of task.now.kind) factor.now (state_of run.old) place → ⊥) }
    ensures fault { IfErr result (RaiseCause (task_of task.now) factor.now (state_of run.old)) }
{
    match told(alloc, program, d, run, task, plans, numbers) {
        Err(_) => Err(InferFault::NoMemory),
        Ok((sigs, hints)) => put(
            alloc,
            program,
            d,
            run,
            plans,
            factor,
            Block {
                task: *task,
                body: BlockBody::Solved { sigs, hints },
            },
        ),
    }
}

// The entries of a vector.
fn entries(alloc: Global, numbers: &[i128]) -> Result<Vec<(u32, i128)>, AllocError>
    ensures { IfOk result (λ entries. (ys : List ℕ) → numbers.now ≡ map pos ys → entries.items ≡ listed 0 ys) }
{
    // so many numbers have no room in memory
    if numbers.len() > u32::MAX as usize {
        return Err(AllocError);
    }
    listed(alloc, numbers)
}

/// The block of a task that is refuted by a vector of these numbers.
pub(crate) fn refuted(
    alloc: Global,
    program: &NormProgram<'_>,
    d: u8,
    run: &mut Run<'_>,
    task: &Task,
    numbers: &[i128],
) -> Result<(), AllocError>
    requires keeps { Keeps program.now d run.old }
    requires next { next_after (program_in program.now) (first_of d) (a.blocks_of run.old.blocks.items) ≡ Some (task_of task.now) }
    ensures keeps { OnOk result (Keeps program.now d run.new) }
    ensures state { OnOk result
        ((ys : List ℕ) → numbers.now ≡ map pos ys →
        state_of run.new ≡ with_block (task_of task.now) (c.Refuted (listed 0 ys)) (state_of run.old)) }
{
    let farkas = entries(alloc, numbers)?;
    let block = Block {
        task: *task,
        body: BlockBody::Refuted { farkas },
    };
    push(alloc, program, d, run, block, &[])
}

/// The block of a task that waits for a function.
pub(crate) fn waits(
    alloc: Global,
    program: &NormProgram<'_>,
    d: u8,
    run: &mut Run<'_>,
    task: &Task,
    fun: FunId,
) -> Result<(), AllocError>
    requires keeps { Keeps program.now d run.old }
    requires next { next_after (program_in program.now) (first_of d) (a.blocks_of run.old.blocks.items) ≡ Some (task_of task.now) }
    ensures keeps { OnOk result (Keeps program.now d run.new) }
    ensures state { OnOk result (state_of run.new ≡ with_block (task_of task.now) (c.Calls fun.0) (state_of run.old)) }
{
    let block = Block {
        task: *task,
        body: BlockBody::Calls { fun },
    };
    push(alloc, program, d, run, block, &[])
}
