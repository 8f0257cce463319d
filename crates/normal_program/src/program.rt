// The normal form of a program.
ghost use Rattle.std.specs.Prelude.{◌≡◌, ◌≤◌, length, IfOk};
ghost use Rattle.raml_syntax.specs.Read.{program_of};
ghost use Rattle.call_groups.specs.Groups.{IsGrouping};
ghost use Rattle.rules_plan.specs.Read.{program_in};
ghost use Rattle.rules_soundness_laws.specs.Laws.{normal_of};

use call_groups::group_calls;
use share_normal::{NormProgram, normalise};
use simple_types::Typed;
use std::alloc::{AllocError, Global};

/// The normal form of a typed program, with the groups of its functions.
pub fn normal_form<'a>(alloc: Global, typed: &'a Typed) -> Result<NormProgram<'a>, AllocError>
    requires { length (program_of typed.now) ≤ 256 }
    ensures source { IfOk result (λ made. made.source ≡ typed.now) }
    ensures groups { IfOk result (λ made. IsGrouping (program_of typed.now) made.groups) }
    ensures normal { IfOk result (λ made. program_in made ≡ normal_of (program_of typed.now) made.groups.list) }
{
    let groups = group_calls(alloc, typed.program())?;
    let program = normalise(alloc, typed, groups)?;
    let _functions = program.functions();
    Ok(program)
}
