// What analyses find of the ticks of a function.
ghost use Rattle.std.specs.Prelude.{◌≡◌, ◌≤◌, ◌<◌, ◌-◌, length, IfOk, OnOk};
ghost use Rattle.raml_syntax.specs.Read.{program_of};
ghost use Rattle.cost_free.specs.declared.task.Meter.TheVariants.{Ticks};
ghost use Rattle.share_normal.specs.Program.{source_in};
ghost use Rattle.rules_plan.specs.Read.{program_in};
ghost use Rattle.bound_infer.specs.Inferred.{IsInferred};
ghost use Rattle.explain_degrees.specs.Degrees.{analysis_at, found_at, IsBounded, IsFinding};
ghost use Rattle.explain_profile.specs.Runs.{FindsTicks};

use analysis_report::laws::bounds_are_of_parameters;
use bound_infer::{Line, Verified};
use cost_free::Meter;
use explain_degrees::{Finding, analyse, refused};
use normal_program::normal_form;
use raml_syntax::FunId;
use share_normal::NormProgram;
use simple_types::Typed;
use std::alloc::{AllocError, Global};

/// What is found where the certificate of a degree has this line.
fn found_at(degree: u8, line: Line) -> Finding
    ensures { result ≡ found_at degree line }
{
    match line {
        Line::Bound(poly) => Finding::Bound { degree, poly },
        Line::NoBound => Finding::NoBound { degree },
        Line::Calls(callee) => Finding::Calls { degree, callee },
    }
}

/// Notes what the certificate of the next degree says, where no bound was found.
fn note_line(
    alloc: Global,
    found: &mut Finding,
    verified: &Verified<'_, '_>,
    degree: u8,
    fun: FunId,
) -> Result<(), AllocError>
    requires inferred { IsInferred (analysis_at (program_in verified.now.program) degree) verified.now.certificate }
    requires fun { fun.0 < length (source_in verified.now.program) }
    requires degree { 1 ≤ degree }
    requires unbounded { IsBounded found.old → ⊥ }
    requires found { IsFinding (source_in verified.now.program) (program_in verified.now.program) (degree - 1) fun.0 Ticks found.old }
    ensures { OnOk result
        (IsFinding (source_in verified.now.program) (program_in verified.now.program) degree fun.0 Ticks found.new) }
{
    bounds_are_of_parameters();
    let _functions = verified.checked().program().functions();
    let _certificate = verified.certificate();
    *found = found_at(degree, verified.line(alloc, fun, Meter::Ticks)?);
    Ok(())
}

/// Goes on with the next degree, where no bound was found.
fn note_degree(
    alloc: Global,
    found: &mut Finding,
    program: &NormProgram<'_>,
    degree: u8,
    fun: FunId,
) -> Result<(), AllocError>
    requires least { 1 ≤ degree }
    requires most { degree ≤ 4 }
    requires fun { fun.0 < length (source_in program.now) }
    requires unbounded { IsBounded found.old → ⊥ }
    requires found { IsFinding (source_in program.now) (program_in program.now) (degree - 1) fun.0 Ticks found.old }
    ensures { OnOk result (IsFinding (source_in program.now) (program_in program.now) degree fun.0 Ticks found.new) }
{
    let _source = program.source();
    match analyse(alloc, program, degree) {
        Ok(verified) => note_line(alloc, found, &verified, degree, fun),
        Err(fault) => {
            refused(degree, fault)?;
            Ok(())
        }
    }
}

/// What the analyses of a program in normal form find of the ticks of a function: from degree 1 on, up to the first at which
/// they have a bound.
fn found_of(
    alloc: Global,
    program: &NormProgram<'_>,
    fun: FunId,
    most: u8,
) -> Result<Finding, AllocError>
    requires fun { fun.0 < length (source_in program.now) }
    requires most { most ≤ 4 }
    ensures { IfOk result (IsFinding (source_in program.now) (program_in program.now) most fun.0 Ticks) }
{
    let mut found = Finding::Refused;
    let mut degree = 0;
    while degree < most && !found.is_bound() {
        degree += 1;
        note_degree(alloc, &mut found, program, degree, fun)?;
    }
    Ok(found)
}

/// What analyses up to a degree find of the ticks of a function of a typed program.
pub(crate) fn ticks_of(
    alloc: Global,
    typed: &Typed,
    fun: FunId,
    most: u8,
) -> Result<Finding, AllocError>
    requires fun { fun.0 < length (program_of typed.now) }
    requires most { most ≤ 4 }
    ensures { IfOk result (FindsTicks (program_of typed.now) fun.0 most) }
{
    let _program = typed.program();
    let program = normal_form(alloc, typed)?;
    let _source = program.source();
    found_of(alloc, &program, fun, most)
}
