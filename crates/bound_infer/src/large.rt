// What is told where the schedule does not go on.
ghost use Rattle.std.specs.Prelude.{◌≢◌, None};
ghost use Rattle.rules_plan.specs.Read.{program_in};
ghost use Rattle.cert_check.specs.Finds.{large_from, schedule};
ghost use Rattle.bound_infer.specs.Keeping.{first_of};
ghost use Rattle.bound_infer.specs.Found.{IsRefusal};

use crate::refusal::InferFault;
use cert_check::large_task;
use constraint_gen::What;
use share_normal::NormProgram;
use std::alloc::Global;

/// The task of the first function, group by group, whose result has too many indices.
pub(crate) fn refused(alloc: Global, program: &NormProgram<'_>, d: u8) -> InferFault
    requires { large_from (schedule (program_in program.now) (first_of d)) 0 program.now.groups.list ≢ None }
    ensures { IsRefusal (large_from (schedule (program_in program.now) (first_of d)) 0 program.now.groups.list) result }
{
    let _source = program.source();
    let _functions = program.functions();
    let _groups = program.groups();
    match large_task(alloc, program.results(), d, program.groups().list()) {
        Ok(Some(task)) => InferFault::TooLarge {
            task,
            what: What::Indices,
        },
        Ok(None) => unreachable!(),
        Err(_) => InferFault::NoMemory,
    }
}
