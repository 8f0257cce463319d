// Places of functions and of forms.
ghost use Rattle.std.specs.Prelude.{◌≡◌};
ghost use Rattle.raml_syntax.specs.Read.{program_of};
ghost use Rattle.rules_walk.specs.Read as walk;
ghost use Rattle.share_normal.specs.Program.{source_in};
ghost use Rattle.explain_origins.specs.Paths.{origin_in};
ghost use Rattle.explain_verify.specs.Told.{function_place, place_or};

use explain_origins::{origin, place_of};
use raml_syntax::{FunId, Program};
use rules_walk::Plan;
use share_normal::NormProgram;

/// The byte at which a function stands.
pub(crate) fn function_place(program: &Program, fun: FunId) -> usize
    ensures { result ≡ function_place (program_of program.now) fun.0 }
{
    match program.funs.get(fun.0 as usize) {
        Some(fun) => fun.at.0 as usize,
        None => 0,
    }
}

/// The byte of the expression for which the form stands to which a path leads; that of the function where it leads to none.
pub(crate) fn form_place(program: &NormProgram<'_>, fun: FunId, plan: &Plan, path: &[u32]) -> usize
    ensures { result ≡ place_or (function_place (source_in program.now) fun.0)
        (origin_in (source_in program.now) fun.0 (walk.plan_of plan.now) path.now) }
{
    match origin(program, fun, plan, path) {
        Some(expr) => place_of(expr).0 as usize,
        None => function_place(program.source(), fun),
    }
}
