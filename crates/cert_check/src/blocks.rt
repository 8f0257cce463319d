// The blocks of a certificate, one after the other.
ghost use Rattle.std.specs.Prelude.{◌≡◌, ◌↔◌, ◌≤◌, ◌++◌, ◌∷◌, [], List, length, true, IsTrue, OnOk};
ghost use Rattle.std.specs.Option.{option_map};
ghost use Rattle.cost_free.specs.Read.{task_of};
ghost use Rattle.cost_free.specs.Refused.{next_in, plan_in, IsRefused};
ghost use Rattle.cost_free.specs.Blocked.{blocked as blocked_in};
ghost use Rattle.annot_types.specs.Held.{NamesBlocker};
ghost use Rattle.cert_check.specs.Same.{is_task};
ghost use Rattle.annot_types.specs.Certificate as c;
ghost use Rattle.annot_types.specs.Read as a;
ghost use Rattle.annot_types.specs.Read.{certificate_of};
ghost use Rattle.rules_plan.specs.Read.{program_in, AreKept};
ghost use Rattle.cert_check.specs.At.{Tells};
ghost use Rattle.cert_check.specs.Course.{HasCome};
ghost use Rattle.cert_check.specs.Finds.{ScheduledFinds, BlockFinds, EndFinds};

use crate::block::{is_task, names_blocker};
use crate::course::{check_there, refused};
use crate::fault::CertFault;
use annot_types::{Block, Certificate};
use base_poly::IndexFault;
use cost_free::{Schedule, Task, blocked};
use rules_plan::KeptPlans;
use rules_walk::Earlier;
use share_normal::NormProgram;
use std::alloc::Global;

// The block is that of the schedule, and it waits where it has to.
fn is_scheduled(
    program: &NormProgram<'_>,
    schedule: &Schedule<'_>,
    block: &Block,
    next: Option<Task>,
) -> bool
    ensures { IsTrue result ↔ ((is_task (task_of block.now.task) (option_map task_of next) ≡ true)
        × NamesBlocker (blocked_in program.now.groups.list program.now.groups.calls
        (task_of block.now.task) schedule.now.done) (a.body_of block.now.body)) }
{
    let blocker = blocked(program.groups(), &block.task, schedule.done());
    is_task(&block.task, next) && names_blocker(blocker, &block.body)
}

// A block after the schedule has gone on to this task.
fn check_next(
    alloc: Global,
    program: &NormProgram<'_>,
    certificate: &Certificate,
    schedule: &mut Schedule<'_>,
    earlier: &mut Earlier,
    kept: &mut KeptPlans,
    number: usize,
    block: &Block,
    next: Option<Task>,
) -> Result<(), CertFault>
    requires degree { certificate.now.degree ≤ 4 }
    requires came { (blocks : List c.Block) × HasCome program.now (certificate_of certificate.now) blocks schedule.old earlier.old }
    requires goes_on { IsRefused 2000 (plan_in schedule.old) schedule.old.done → ⊥ }
    requires next { option_map task_of next ≡ next_in (plan_in schedule.old) schedule.old.done }
    requires kept { AreKept (program_in program.now) kept.old }
    ensures kept { OnOk result (AreKept (program_in program.now) kept.new) }
    ensures tells { (blocks : List c.Block) →
        HasCome program.now (certificate_of certificate.now) blocks schedule.old earlier.old → length blocks ≡ number →
        Tells result (ScheduledFinds (program_in program.now) (certificate_of certificate.now) blocks (a.block_of block.now)) }
    ensures goes { OnOk result
        ((blocks : List c.Block) →
        HasCome program.now (certificate_of certificate.now) blocks schedule.old earlier.old → length blocks ≡ number →
        HasCome program.now (certificate_of certificate.now) (blocks ++ a.block_of block.now ∷ []) schedule.new earlier.new) }
{
    let _functions = program.functions();
    let _results = program.results();
    let _groups = program.groups();
    if is_scheduled(program, schedule, block, next) {
        check_there(
            alloc,
            program,
            certificate,
            schedule,
            earlier,
            kept,
            number,
            block,
        )
    } else {
        Err(CertFault::Shape { block: number })
    }
}

/// The check of a block.
pub fn check_block(
    alloc: Global,
    program: &NormProgram<'_>,
    certificate: &Certificate,
    schedule: &mut Schedule<'_>,
    earlier: &mut Earlier,
    kept: &mut KeptPlans,
    number: usize,
    block: &Block,
) -> Result<(), CertFault>
    requires degree { certificate.now.degree ≤ 4 }
    requires came { (blocks : List c.Block) × HasCome program.now (certificate_of certificate.now) blocks schedule.old earlier.old }
    requires kept { AreKept (program_in program.now) kept.old }
    ensures kept { OnOk result (AreKept (program_in program.now) kept.new) }
    ensures tells { (blocks : List c.Block) →
        HasCome program.now (certificate_of certificate.now) blocks schedule.old earlier.old → length blocks ≡ number →
        Tells result (BlockFinds (program_in program.now) (certificate_of certificate.now) blocks (a.block_of block.now)) }
    ensures goes { OnOk result
        ((blocks : List c.Block) →
        HasCome program.now (certificate_of certificate.now) blocks schedule.old earlier.old → length blocks ≡ number →
        HasCome program.now (certificate_of certificate.now) (blocks ++ a.block_of block.now ∷ []) schedule.new earlier.new) }
{
    let _functions = program.functions();
    let _results = program.results();
    match schedule.current() {
        Err(IndexFault::TooMany) => Err(refused(alloc, program, certificate)),
        Err(IndexFault::NoMemory) => Err(CertFault::NoMemory),
        Ok(next) => check_next(
            alloc,
            program,
            certificate,
            schedule,
            earlier,
            kept,
            number,
            block,
            next,
        ),
    }
}

/// The schedule has to have ended.
pub fn check_end(
    alloc: Global,
    program: &NormProgram<'_>,
    certificate: &Certificate,
    schedule: &mut Schedule<'_>,
    earlier: &Earlier,
    number: usize,
) -> Result<(), CertFault>
    requires { (blocks : List c.Block) × HasCome program.now (certificate_of certificate.now) blocks schedule.old earlier.now }
    ensures { (blocks : List c.Block) →
        HasCome program.now (certificate_of certificate.now) blocks schedule.old earlier.now → length blocks ≡ number →
        Tells result (EndFinds (program_in program.now) (certificate_of certificate.now) blocks) }
{
    let _functions = program.functions();
    let _results = program.results();
    match schedule.current() {
        Err(IndexFault::TooMany) => Err(refused(alloc, program, certificate)),
        Err(IndexFault::NoMemory) => Err(CertFault::NoMemory),
        Ok(None) => Ok(()),
        Ok(Some(_)) => Err(CertFault::Shape { block: number }),
    }
}
