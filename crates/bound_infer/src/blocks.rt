// The vectors of a certificate, block by block.
ghost use Rattle.std.specs.Prelude.{◌≡◌, ◌++◌, ◌∷◌, [], List, length, None, Some, slice_get, IfOk, OnOk, IfErr};
ghost use Rattle.annot_types.specs.Program.{Program};
ghost use Rattle.annot_types.specs.Certificate as c;
ghost use Rattle.annot_types.specs.Held.{Held, before};
ghost use Rattle.annot_types.specs.Read.{block_of, blocks_of, certificate_of};
ghost use Rattle.cost_free.specs.Read.{task_of};
ghost use Rattle.rules_walk.specs.Remembers.{Remembers};
ghost use Rattle.rules_plan.specs.Read.{program_in};
ghost use Rattle.infer_systems_laws.specs.Tried.{IsOrdered};
ghost use Rattle.infer_systems_laws.specs.Laws.{LimitsAreTold};
ghost use Rattle.bound_infer.specs.Cleared.{fault_of, OfFault, Faulty, BlockCause, BlockTells, ClearBefore};
ghost use Rattle.bound_infer.specs.Inferred.{VerifyCause};
ghost use Rattle.bound_infer.specs.Sized.{HasSizes};
ghost use Rattle.cert_check.specs.Finds.{FirstFault};

use crate::kinds::{budget_of, members, scale_for};
use crate::laws::refuted_are_tasks;
use crate::leaves::LeavesAt;
use crate::refusal::VerifyFault;
use crate::refuting::{VectorFault, check_refuted};
use crate::sizes::sizes;
use annot_types::{Block, BlockBody, Certificate};
use cost_free::Task;
use rules_walk::Earlier;
use share_normal::NormProgram;
use std::alloc::{AllocError, Global};

// What is told of a block whose vector has a fault.
fn told(number: usize, task: Task, fault: VectorFault) -> VerifyFault
    ensures { (P : Program) (c : c.Certificate) → OfFault (fault_of fault) (Faulty P c number) →
        BlockCause P c number (task_of task) result }
{
    match fault {
        VectorFault::TooLarge { what } => VerifyFault::TooLarge { task, what },
        VectorFault::Row { row } => VerifyFault::Leaves(LeavesAt::Row { task, row }),
        VectorFault::NotRefuted => VerifyFault::NotRefuted { block: number },
        VectorFault::Refute { column } => VerifyFault::Leaves(LeavesAt::Refute { task, column }),
        VectorFault::NoMemory => VerifyFault::NoMemory,
    }
}

// The check of a refuted block.
fn verify_refuted(
    alloc: Global,
    program: &NormProgram<'_>,
    certificate: &Certificate,
    earlier: &Earlier,
    number: usize,
    task: &Task,
    farkas: &[(u32, i128)],
) -> Result<(), VerifyFault>
    requires held { Held (program_in program.now) (certificate_of certificate.now) }
    requires there { slice_get (blocks_of certificate.now.blocks.items) number
        ≡ Some (record { task = task_of task.now; body = c.Refuted farkas.now }) }
    requires ordered { IsOrdered (program_in program.now) }
    requires limits { LimitsAreTold }
    ensures { Remembers (program_in program.now) certificate.now.degree (before (certificate_of certificate.now) number) earlier.now →
        BlockTells (program_in program.now) (certificate_of certificate.now) number
        (record { task = task_of task.now; body = c.Refuted farkas.now }) result }
{
    refuted_are_tasks();
    let scale = scale_for(certificate, task.kind);
    match check_refuted(
        alloc,
        program,
        certificate.degree,
        earlier,
        task,
        scale,
        farkas,
    ) {
        Ok(()) => Ok(()),
        Err(fault) => Err(told(number, *task, fault)),
    }
}

// The check of a block.
fn verify_block(
    alloc: Global,
    program: &NormProgram<'_>,
    certificate: &Certificate,
    earlier: &Earlier,
    number: usize,
    block: &Block,
) -> Result<(), VerifyFault>
    requires held { Held (program_in program.now) (certificate_of certificate.now) }
    requires there { slice_get (blocks_of certificate.now.blocks.items) number ≡ Some (block_of block.now) }
    requires ordered { IsOrdered (program_in program.now) }
    requires limits { LimitsAreTold }
    ensures { Remembers (program_in program.now) certificate.now.degree (before (certificate_of certificate.now) number) earlier.now →
        BlockTells (program_in program.now) (certificate_of certificate.now) number (block_of block.now) result }
{
    match &block.body {
        BlockBody::Solved { .. } => Ok(()),
        BlockBody::Refuted { farkas } => verify_refuted(
            alloc,
            program,
            certificate,
            earlier,
            number,
            &block.task,
            farkas,
        ),
        BlockBody::Calls { .. } => Ok(()),
    }
}

// How many positions the functions of a solved block have.
fn block_sizes(
    alloc: Global,
    program: &NormProgram<'_>,
    degree: u8,
    block: &Block,
) -> Result<Vec<(usize, usize)>, AllocError>
    requires { IsOrdered (program_in program.now) }
    ensures { IfOk result (λ made. HasSizes (program_in program.now) degree (block_of block.now) made.items) }
{
    match &block.body {
        BlockBody::Solved { .. } => sizes(
            alloc,
            program,
            block.task.group,
            budget_of(degree, block.task.kind),
        ),
        BlockBody::Refuted { .. } => Ok(Vec::new(alloc)),
        BlockBody::Calls { .. } => Ok(Vec::new(alloc)),
    }
}

// The tables go past a block.
fn remember(
    alloc: Global,
    program: &NormProgram<'_>,
    degree: u8,
    earlier: &mut Earlier,
    block: &Block,
) -> Result<(), AllocError>
    requires { IsOrdered (program_in program.now) }
    ensures { OnOk result ((blocks : List c.Block) → Remembers (program_in program.now) degree blocks earlier.old →
        Remembers (program_in program.now) degree (blocks ++ block_of block.now ∷ []) earlier.new) }
{
    let sizes = block_sizes(alloc, program, degree, block)?;
    earlier.add(
        alloc,
        degree,
        block,
        members(program, block.task.group),
        &sizes,
    )
}

/// The check of all vectors of a certificate that is held.
pub fn verify_blocks(
    alloc: Global,
    program: &NormProgram<'_>,
    certificate: &Certificate,
) -> Result<(), VerifyFault>
    requires held { Held (program_in program.now) (certificate_of certificate.now) }
    requires passes { FirstFault (program_in program.now) (certificate_of certificate.now) None }
    requires ordered { IsOrdered (program_in program.now) }
    requires limits { LimitsAreTold }
    ensures clear { OnOk result
        (ClearBefore (program_in program.now) (certificate_of certificate.now) (length (blocks_of certificate.now.blocks.items))) }
    ensures fault { IfErr result (VerifyCause (program_in program.now) (certificate_of certificate.now)) }
{
    let _source = program.source();
    let functions = program.functions();
    let Ok(mut earlier) = Earlier::new(alloc, functions.len()) else {
        return Err(VerifyFault::NoMemory);
    };
    for number in 0..certificate.blocks.len() {
        let block = &certificate.blocks[number];
        if let Err(fault) = verify_block(alloc, program, certificate, &earlier, number, block) {
            return Err(fault);
        }
        if let Err(_) = remember(alloc, program, certificate.degree, &mut earlier, block) {
            return Err(VerifyFault::NoMemory);
        }
    }
    Ok(())
}
