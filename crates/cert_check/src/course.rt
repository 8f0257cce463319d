// The walk through the blocks of a certificate.
ghost use Rattle.std.specs.Prelude.{◌≡◌, ◌≤◌, ◌++◌, ◌∷◌, [], List, length, Some, OnOk};
ghost use Rattle.cost_free.specs.Read.{kind_of, task_of};
ghost use Rattle.cost_free.specs.Refused.{plan_in, IsRefused};
ghost use Rattle.cost_free.specs.Task.{Outcome};
ghost use Rattle.annot_types.specs.Certificate as c;
ghost use Rattle.annot_types.specs.Certificate.{done_as};
ghost use Rattle.annot_types.specs.Held.{IfSolved};
ghost use Rattle.annot_types.specs.Holds.{budget_of};
ghost use Rattle.annot_types.specs.Read as a;
ghost use Rattle.annot_types.specs.Read.{certificate_of};
ghost use Rattle.rules_walk.specs.Remembers.{Remembers};
ghost use Rattle.rules_plan.specs.Read.{program_in, AreKept};
ghost use Rattle.cert_check.specs.At.{Tells, sizes_in};
ghost use Rattle.cert_check.specs.Course.{HasCome};
ghost use Rattle.cert_check.specs.Finds.{schedule as schedule_of, next_after, refusal, BodyFinds};
ghost use Rattle.cert_check.specs.Read.{fault_of, OfFault};

use crate::at::{At, members};
use crate::block::check_body;
use crate::fault::CertFault;
use crate::head::scale_for;
use crate::refusal::large_task;
use annot_types::{Block, BlockBody, Certificate};
use base_poly::IndexFault;
use cost_free::{Done, Schedule};
use rules_plan::KeptPlans;
use rules_walk::Earlier;
use share_normal::NormProgram;
use std::alloc::{AllocError, Global};

/// How a block came out.
pub fn done_as(body: &BlockBody) -> Done
    ensures { result ≡ done_as (a.body_of body.now) }
{
    match body {
        BlockBody::Solved { .. } => Done::Solved,
        BlockBody::Refuted { .. } => Done::Refuted,
        BlockBody::Calls { .. } => Done::Calls,
    }
}

/// What is told where the schedule does not go on.
pub fn refused(alloc: Global, program: &NormProgram<'_>, certificate: &Certificate) -> CertFault
    requires { (done : List Outcome) × IsRefused 2000 (schedule_of (program_in program.now) (certificate_of certificate.now)) done }
    ensures { OfFault (fault_of result) (λ found. found ≡ refusal (program_in program.now) (certificate_of certificate.now)) }
{
    let _source = program.source();
    let _functions = program.functions();
    let _groups = program.groups();
    match large_task(
        alloc,
        program.results(),
        certificate.degree,
        program.groups().list(),
    ) {
        Ok(Some(task)) => CertFault::TooLarge { task },
        Ok(None) => unreachable!(),
        Err(_) => CertFault::NoMemory,
    }
}

/// The tables go past a block, whose functions have so many positions.
pub fn remember(
    alloc: Global,
    program: &NormProgram<'_>,
    degree: u8,
    earlier: &mut Earlier,
    block: &Block,
    sizes: &[(usize, usize)],
) -> Result<(), AllocError>
    ensures { OnOk result ((blocks : List c.Block) → Remembers (program_in program.now) degree blocks earlier.old →
        IfSolved (a.body_of block.now.body) (sizes.now ≡ sizes_in (program_in program.now) degree blocks (task_of block.now.task)) →
        Remembers (program_in program.now) degree (blocks ++ a.block_of block.now ∷ []) earlier.new) }
{
    let _functions = program.functions();
    let _groups = program.groups();
    let functions = members(program, block.task.group);
    earlier.add(alloc, degree, block, functions, sizes)
}

// The schedule and the tables do.
fn go_on(
    alloc: Global,
    program: &NormProgram<'_>,
    degree: u8,
    schedule: &mut Schedule<'_>,
    earlier: &mut Earlier,
    block: &Block,
    sizes: &[(usize, usize)],
) -> Result<(), AllocError>
    requires { IsRefused 2000 (plan_in schedule.old) schedule.old.done → ⊥ }
    ensures { OnOk result ((held : c.Certificate) (blocks : List c.Block) → held.degree ≡ degree →
        HasCome program.now held blocks schedule.old earlier.old →
        next_after (program_in program.now) held blocks ≡ Some (task_of block.now.task) →
        IfSolved (a.body_of block.now.body) (sizes.now ≡ sizes_in (program_in program.now) degree blocks (task_of block.now.task)) →
        HasCome program.now held (blocks ++ a.block_of block.now ∷ []) schedule.new earlier.new) }
{
    let _functions = program.functions();
    let _results = program.results();
    match schedule.record(done_as(&block.body)) {
        Err(IndexFault::TooMany) => unreachable!(),
        Err(IndexFault::NoMemory) => Err(AllocError),
        Ok(()) => remember(alloc, program, degree, earlier, block, sizes),
    }
}

/// The check of a block of the schedule, past which the schedule and the tables go.
pub fn check_there(
    alloc: Global,
    program: &NormProgram<'_>,
    certificate: &Certificate,
    schedule: &mut Schedule<'_>,
    earlier: &mut Earlier,
    kept: &mut KeptPlans,
    number: usize,
    block: &Block,
) -> Result<(), CertFault>
    requires low { budget_of certificate.now.degree (kind_of block.now.task.kind) ≤ 4 }
    requires came { (blocks : List c.Block) × HasCome program.now (certificate_of certificate.now) blocks schedule.old earlier.old }
    requires goes_on { IsRefused 2000 (plan_in schedule.old) schedule.old.done → ⊥ }
    requires kept { AreKept (program_in program.now) kept.old }
    ensures kept { OnOk result (AreKept (program_in program.now) kept.new) }
    ensures tells { (blocks : List c.Block) →
        HasCome program.now (certificate_of certificate.now) blocks schedule.old earlier.old → length blocks ≡ number →
        Tells result (BodyFinds (program_in program.now) (certificate_of certificate.now) blocks
        (task_of block.now.task) (a.body_of block.now.body)) }
    ensures goes { OnOk result
        ((blocks : List c.Block) →
        HasCome program.now (certificate_of certificate.now) blocks schedule.old earlier.old → length blocks ≡ number →
        next_after (program_in program.now) (certificate_of certificate.now) blocks ≡ Some (task_of block.now.task) →
        HasCome program.now (certificate_of certificate.now) (blocks ++ a.block_of block.now ∷ []) schedule.new earlier.new) }
{
    let at = At {
        alloc,
        program,
        degree: certificate.degree,
        scale: scale_for(certificate, block.task.kind),
        earlier: &*earlier,
        number,
        task: block.task,
    };
    match check_body(&at, kept, &block.body) {
        Err(fault) => Err(fault),
        Ok(sizes) => {
            match go_on(
                alloc,
                program,
                certificate.degree,
                schedule,
                earlier,
                block,
                &sizes,
            ) {
                Ok(()) => Ok(()),
                Err(_) => Err(CertFault::NoMemory),
            }
        }
    }
}
