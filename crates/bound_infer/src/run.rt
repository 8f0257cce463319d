// What is kept along a course.
ghost use Rattle.std.specs.Prelude.{◌≡◌, ◌++◌, ◌∷◌, [], List, map, Some, IfOk, OnOk, IsErrOf};
ghost use Rattle.std.specs.Option.{option_map};
ghost use Rattle.raml_syntax.specs.declared.program.FunId.{FunId as TheFunId};
ghost use Rattle.cost_free.specs.Read.{task_of};
ghost use Rattle.cost_free.specs.Refused.{IsRefused};
ghost use Rattle.annot_types.specs.Certificate as c;
ghost use Rattle.annot_types.specs.Certificate.{outcome};
ghost use Rattle.annot_types.specs.Held.{IfSolved};
ghost use Rattle.annot_types.specs.Program.{blocker_of};
ghost use Rattle.annot_types.specs.Read as a;
ghost use Rattle.rules_plan.specs.Read.{program_in};
ghost use Rattle.cert_check.specs.At.{sizes_in};
ghost use Rattle.cert_check.specs.Course.{HasCome};
ghost use Rattle.cert_check.specs.Finds.{schedule, next_after, GoesOn};
ghost use Rattle.infer_spec.specs.States.{start, with_block};
ghost use Rattle.bound_infer.specs.Keeping.{state_of, first_of, Keeps};

use crate::fitting::body_fits;
use crate::scales::Scales;
use annot_types::Block;
use base_poly::IndexFault;
use cert_check::{done_as, remember};
use cost_free::{Schedule, Task, blocked};
use raml_syntax::FunId;
use rules_walk::Earlier;
use share_normal::NormProgram;
use std::alloc::{AllocError, Global};

/// An analysis so far: its schedule, what walks take from the blocks, the blocks, and the meters' scales.
#[derive(Drop)]
pub(crate) struct Run<'p> {
    pub(crate) schedule: Schedule<'p>,
    pub(crate) earlier: Earlier,
    pub(crate) blocks: Vec<Block>,
    pub(crate) scales: Scales,
}

/// Before the first task.
pub(crate) fn begin<'p>(
    alloc: Global,
    program: &'p NormProgram<'_>,
    d: u8,
) -> Result<Run<'p>, AllocError>
    ensures keeps { IfOk result (Keeps program.now d) }
    ensures start { IfOk result (λ run. state_of run ≡ start) }
{
    let functions = program.functions();
    let results = program.results();
    let earlier = Earlier::new(alloc, functions.len())?;
    Ok(Run {
        schedule: Schedule::new(alloc, results, program.groups(), d, true),
        earlier,
        blocks: Vec::new(alloc),
        scales: Scales::new(),
    })
}

/// The next task, and None at the end; `TooMany` where the schedule does not go on.
pub(crate) fn current(
    program: &NormProgram<'_>,
    d: u8,
    run: &mut Run<'_>,
) -> Result<Option<Task>, IndexFault>
    requires keeps { Keeps program.now d run.old }
    ensures keeps { Keeps program.now d run.new }
    ensures state { state_of run.new ≡ state_of run.old }
    ensures next { IfOk result
        (λ task. option_map task_of task ≡ next_after (program_in program.now) (first_of d) (a.blocks_of run.old.blocks.items)) }
    ensures goes_on { OnOk result (GoesOn (program_in program.now) (first_of d) (a.blocks_of run.old.blocks.items)) }
    ensures many { IsErrOf result IndexFault.TooMany →
        IsRefused 2000 (schedule (program_in program.now) (first_of d)) (map outcome (a.blocks_of run.old.blocks.items)) }
{
    let _functions = program.functions();
    let _results = program.results();
    run.schedule.current()
}

/// The function that a task waits for.
pub(crate) fn waits_for(
    program: &NormProgram<'_>,
    d: u8,
    run: &Run<'_>,
    task: &Task,
) -> Option<FunId>
    requires keeps { Keeps program.now d run.now }
    ensures { option_map (λ (f : TheFunId). f.0) result
        ≡ blocker_of (program_in program.now) (task_of task.now) (map outcome (a.blocks_of run.now.blocks.items)) }
{
    let _functions = program.functions();
    let _results = program.results();
    blocked(program.groups(), task, run.schedule.done())
}

// The schedule and the tables do.
fn note(
    alloc: Global,
    program: &NormProgram<'_>,
    d: u8,
    schedule: &mut Schedule<'_>,
    earlier: &mut Earlier,
    block: &Block,
    sizes: &[(usize, usize)],
) -> Result<(), AllocError>
    ensures { OnOk result ((blocks : List c.Block) → HasCome program.now (first_of d) blocks schedule.old earlier.old →
        next_after (program_in program.now) (first_of d) blocks ≡ Some (task_of block.now.task) →
        IfSolved (a.body_of block.now.body) (sizes.now ≡ sizes_in (program_in program.now) d blocks (task_of block.now.task)) →
        HasCome program.now (first_of d) (blocks ++ a.block_of block.now ∷ []) schedule.new earlier.new) }
{
    let _functions = program.functions();
    let _results = program.results();
    match schedule.record(done_as(&block.body)) {
        Err(_) => Err(AllocError),
        Ok(()) => remember(alloc, program, d, earlier, block, sizes),
    }
}

/// One block more, of the next task.
pub(crate) fn push(
    alloc: Global,
    program: &NormProgram<'_>,
    d: u8,
    run: &mut Run<'_>,
    block: Block,
    sizes: &[(usize, usize)],
) -> Result<(), AllocError>
    requires keeps { Keeps program.now d run.old }
    requires next { next_after (program_in program.now) (first_of d) (a.blocks_of run.old.blocks.items) ≡ Some (task_of block.task) }
    requires sizes { IfSolved (a.body_of block.body)
        (sizes.now ≡ sizes_in (program_in program.now) d (a.blocks_of run.old.blocks.items) (task_of block.task)) }
    ensures keeps { OnOk result (Keeps program.now d run.new) }
    ensures state { OnOk result (state_of run.new ≡ with_block (task_of block.task) (a.body_of block.body) (state_of run.old)) }
{
    body_fits(&block.body);
    note(
        alloc,
        program,
        d,
        &mut run.schedule,
        &mut run.earlier,
        &block,
        sizes,
    )?;
    run.blocks.push(block)?;
    Ok(())
}
