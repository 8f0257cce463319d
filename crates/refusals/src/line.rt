// Refusals whose lines name functions of the program.
ghost use Rattle.std.specs.Prelude.{◌≡◌, IfOk, string_bytes};
ghost use Rattle.share_normal.specs.Program.{source_in};
ghost use Rattle.cost_free.specs.Read.{task_of};
ghost use Rattle.refusal_text.specs.Tasks.{too_large_line};
ghost use Rattle.refusals.specs.Line as l;
ghost use Rattle.refusals.specs.Refusals.{IsToldOr, CourseRefusal, names_in};

use crate::answer::Refusal;
use crate::status::{OverflowAt, Status};
use bound_infer::{InferFault, LeavesAt};
use constraint_gen::What;
use cost_free::{Meter, Task};
use raml_syntax::FunId;
use refusal_text::{
    Analysed, check_line, least_line, powers_line, refute_line, rescale_line, row_line, scale_line,
    solve_line, too_large_line,
};
use share_normal::NormProgram;
use std::alloc::{AllocError, Global};

/// Why the course of the program's analysis has no certificate.
pub fn course_refusal(
    alloc: Global,
    whose: Analysed,
    program: &NormProgram<'_>,
    fault: InferFault,
) -> Refusal
    ensures { CourseRefusal whose (names_in program.now) fault result }
{
    match whose {
        Analysed::Program => own_course_refusal(alloc, program, fault),
        Analysed::Other => other_course_refusal(alloc, program, fault),
    }
}

fn own_course_refusal(alloc: Global, program: &NormProgram<'_>, fault: InferFault) -> Refusal
    ensures { CourseRefusal Analysed.Program (names_in program.now) fault result }
{
    match fault {
        InferFault::TooLarge { task, what } => too_large(alloc, program, task, what),
        InferFault::Leaves(at) => overflow(alloc, program, at),
        InferFault::NoMemory => Refusal::no_memory(),
    }
}

fn other_course_refusal(alloc: Global, program: &NormProgram<'_>, fault: InferFault) -> Refusal
    ensures { CourseRefusal Analysed.Other (names_in program.now) fault result }
{
    match fault {
        InferFault::NoMemory => Refusal::no_memory(),
        fault => {
            let line = other_line(alloc, program, &fault);
            Refusal::told(Status::OtherFault(fault), line)
        }
    }
}

// The line of a fault in the analysis of the other program; empty where memory is wanting.
fn other_line(
    alloc: Global,
    program: &NormProgram<'_>,
    fault: &InferFault,
) -> Result<String, AllocError>
    ensures { IfOk result (λ line. string_bytes line ≡ l.course_line Analysed.Other (names_in program.now) fault.now) }
{
    match fault {
        InferFault::TooLarge { task, what } => {
            too_large_text(alloc, Analysed::Other, program, task, *what)
        }
        InferFault::Leaves(at) => leaves_line(alloc, Analysed::Other, program, at),
        InferFault::NoMemory => Ok(String::new(alloc)),
    }
}

/// The power form of the function's bound on the meter leaves 128 bits.
pub fn powers_refusal(alloc: Global, program: &NormProgram<'_>, fun: FunId, meter: Meter) -> Refusal
    ensures { IsToldOr (names_in program.now) (Status.Overflow (OverflowAt.Powers fun meter)) result }
{
    let line = powers_line(alloc, program.source(), fun, meter);
    Refusal::told(Status::Overflow(OverflowAt::Powers { fun, meter }), line)
}

/// A task is too large.
pub fn too_large(alloc: Global, program: &NormProgram<'_>, task: Task, what: What) -> Refusal
    ensures { IsToldOr (names_in program.now) (Status.TooLarge task what) result }
{
    let line = too_large_text(alloc, Analysed::Program, program, &task, what);
    Refusal::told(Status::TooLarge { task, what }, line)
}

// The line of a task that is too large.
fn too_large_text(
    alloc: Global,
    whose: Analysed,
    program: &NormProgram<'_>,
    task: &Task,
    what: What,
) -> Result<String, AllocError>
    ensures { IfOk result (λ line. string_bytes line
        ≡ too_large_line whose (source_in program.now) program.now.groups.list (task_of task.now) what) }
{
    too_large_line(
        alloc,
        whose,
        program.source(),
        program.groups().list(),
        task,
        what,
    )
}

/// A number leaves 128 bits.
pub fn overflow(alloc: Global, program: &NormProgram<'_>, at: LeavesAt) -> Refusal
    ensures { IsToldOr (names_in program.now) (Status.Overflow (OverflowAt.At at)) result }
{
    let line = leaves_line(alloc, Analysed::Program, program, &at);
    Refusal::told(Status::Overflow(OverflowAt::At(at)), line)
}

// The line of a place where a number leaves 128 bits.
fn leaves_line(
    alloc: Global,
    whose: Analysed,
    program: &NormProgram<'_>,
    at: &LeavesAt,
) -> Result<String, AllocError>
    ensures { IfOk result (λ line. string_bytes line ≡ l.leaves_line whose (names_in program.now) at.now) }
{
    let source = program.source();
    let groups = program.groups().list();
    match at {
        LeavesAt::Solve {
            task,
            pivots,
            row,
            col,
        } => solve_line(alloc, whose, source, groups, task, pivots.len(), *row, *col),
        LeavesAt::Row { task, row } => row_line(alloc, whose, source, groups, task, *row),
        LeavesAt::Scale { task, entry } => scale_line(alloc, whose, source, groups, task, *entry),
        LeavesAt::Rescale { task, block } => rescale_line(
            alloc, whose, source, groups, task, *block,
        ),
        LeavesAt::Check { block, path, index } => {
            check_line(alloc, whose, *block, path.as_slice(), *index)
        }
        LeavesAt::Refute { task, column } => refute_line(
            alloc, whose, source, groups, task, *column,
        ),
        LeavesAt::Least { task, column } => least_line(alloc, whose, source, groups, task, *column),
    }
}
