// Where a block stands.
ghost use Rattle.std.specs.Prelude.{◌≡◌, slice_get, None, IfSome, IfNone};
ghost use Rattle.raml_syntax.specs.Read.{ty_of};
ghost use Rattle.call_groups.specs.Read.{ids_of};
ghost use Rattle.cost_free.specs.Read.{kind_of};
ghost use Rattle.annot_types.specs.Program.{members};
ghost use Rattle.annot_types.specs.Holds as h;
ghost use Rattle.rules_walk.specs.Read as r;
ghost use Rattle.rules_plan.specs.Read.{program_in};
ghost use Rattle.cert_check.specs.Results.{HasResult};

use cost_free::{Task, TaskKind};
use raml_syntax::{FunId, Ty};
use rules_walk::{Earlier, Mode};
use share_normal::NormProgram;
use std::alloc::Global;

/// A block by its number and its task, and what is known there: the program, the degree, the scale of
/// the prices, and what is kept of the blocks before.
#[derive(Drop)]
pub struct At<'p, 'a> {
    pub alloc: Global,
    pub program: &'p NormProgram<'a>,
    pub degree: u8,
    pub scale: u128,
    pub earlier: &'p Earlier,
    pub number: usize,
    pub task: Task,
}

/// The functions of a group; none where there is no such group.
pub fn members<'p>(program: &'p NormProgram<'_>, group: u32) -> &'p [FunId]
    ensures { ids_of result.now ≡ members (program_in program.now) group }
{
    match program.groups().list().get(group as usize) {
        Some(functions) => functions,
        None => &[],
    }
}

/// The type of a function's results; none where there is no such function.
pub fn result_of<'p>(program: &'p NormProgram<'_>, fun: FunId) -> Option<&'p Ty>
    ensures there { IfSome result (λ ty. HasResult (program_in program.now).funs fun.0 (ty_of ty.now)) }
    ensures none { IfNone result (slice_get (program_in program.now).funs fun.0 ≡ None) }
{
    let _functions = program.functions();
    let results = program.results();
    let place = fun.0 as usize;
    if place < results.len() {
        Some(&results[place])
    } else {
        None
    }
}

/// The budget of a block, in a certificate of this degree.
pub fn budget_of(degree: u8, kind: TaskKind) -> u8
    ensures { result ≡ h.budget_of degree (kind_of kind) }
{
    match kind {
        TaskKind::Free { budget, .. } => budget,
        TaskKind::With(_) => degree,
    }
}

/// The mode in which it is walked.
pub fn mode_of(kind: TaskKind) -> Mode
    ensures { r.mode_of result ≡ h.mode_of (kind_of kind) }
{
    match kind {
        TaskKind::Free { .. } => Mode::Own,
        TaskKind::With(meter) => Mode::With(meter),
    }
}
