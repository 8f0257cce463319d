// What is known of an analysed program.
ghost use Rattle.std.specs.Prelude.{◌≡◌, ◌<◌, ◌^◌, length, IfOk};
ghost use Rattle.raml_syntax.specs.Read.{program_of};
ghost use Rattle.explain_insight.specs.Insight.{IsToldProgram};
ghost use Rattle.explain_insight.specs.Lenses.{AreEach, IsHint, IsLens};
ghost use Rattle.explain_insight.specs.Read.{CanAllBeTold};

use crate::analysed::Analysed;
use crate::called::push_function_hovers;
use crate::lens::{hint, lens};
use crate::parameter::push_parameter_hovers;
use explain_degrees::Findings;
use lsp_language::{Hint, Insight, Lens};
use raml_syntax::Program;
use std::alloc::{AllocError, Global};

/// What is known of a program, which this source spells, where this is found of its functions.
pub fn program_insight(
    alloc: Global,
    source: &[u8],
    program: &Program,
    findings: &[Findings],
) -> Result<Insight, AllocError>
    requires count { length findings.now ≡ length (program_of program.now) }
    requires few { length (program_of program.now) < 2 ^ 32 }
    requires told { CanAllBeTold (program_of program.now) findings.now }
    ensures { IfOk result (IsToldProgram source.now (program_of program.now) findings.now) }
{
    let analysed = Analysed {
        source,
        program,
        findings,
    };
    let mut insight = Insight::new(alloc);
    push_function_hovers(alloc, &mut insight.hovers, &analysed)?;
    push_parameter_hovers(alloc, &mut insight.hovers, &analysed)?;
    insight.lenses = lenses(alloc, program, findings)?;
    insight.hints = hints(alloc, source, program, findings)?;
    Ok(insight)
}

/// The lenses of the functions.
fn lenses(alloc: Global, program: &Program, findings: &[Findings]) -> Result<Vec<Lens>, AllocError>
    requires count { length findings.now ≡ length (program_of program.now) }
    requires told { CanAllBeTold (program_of program.now) findings.now }
    ensures { IfOk result (λ lenses. AreEach IsLens (program_of program.now) findings.now lenses.items) }
{
    let mut lenses = Vec::with_capacity(alloc, findings.len())?;
    for place in 0..findings.len() {
        lenses.push(lens(alloc, &program.funs[place], &findings[place])?)?;
    }
    Ok(lenses)
}

/// The hints of the functions.
fn hints(
    alloc: Global,
    source: &[u8],
    program: &Program,
    findings: &[Findings],
) -> Result<Vec<Hint>, AllocError>
    requires count { length findings.now ≡ length (program_of program.now) }
    requires told { CanAllBeTold (program_of program.now) findings.now }
    ensures { IfOk result (λ hints. AreEach (IsHint source.now) (program_of program.now) findings.now hints.items) }
{
    let mut hints = Vec::with_capacity(alloc, findings.len())?;
    for place in 0..findings.len() {
        hints.push(hint(alloc, source, &program.funs[place], &findings[place])?)?;
    }
    Ok(hints)
}
