// Bounds as powers of element counts.
ghost use Rattle.std.specs.Prelude.{◌≡◌, ◌≤◌, ◌<◌, ◌++◌, true, All, length, slice_get, Some, OnOk, IfOk, IfErr, IsErrOf, string_bytes};
ghost use Rattle.std.specs.List.{Contains};
ghost use Rattle.raml_syntax.specs.Tree.{Function};
ghost use Rattle.raml_syntax.specs.Types.{types_of};
ghost use Rattle.raml_syntax.specs.Read.{program_of};
ghost use Rattle.base_poly.specs.Indices.{AreIndices};
ghost use Rattle.base_poly.specs.Plain.{degrees};
ghost use Rattle.base_poly.specs.Poly.{den_of, terms_of, IsPoly};
ghost use Rattle.base_poly.specs.Read.{context_of};
ghost use Rattle.bound_compare.specs.Powers.{are_flat, Fits, Leaves};
ghost use Rattle.cost_free.specs.Schedule.{meters};
ghost use Rattle.share_normal.specs.Program.{source_in};
ghost use Rattle.annot_types.specs.Certificate.{has_work};
ghost use Rattle.annot_types.specs.Held.{Bound};
ghost use Rattle.rules_plan.specs.Read.{program_in};
ghost use Rattle.report_text.specs.Names.{name_at};
ghost use Rattle.report_text.specs.Report.{types_in};
ghost use Rattle.analysis_report.specs.Powers.{power_line, IsPowersOf, ToldInPowers, FitsAt, AllFitBefore, ArePowerLines};
ghost use Rattle.analysis_report.specs.Steps.{told_of, CanBeWritten, LeavesHere, HasPowerLine, HasPowerLines, AllFitBelow};
ghost use Rattle.analysis_report.specs.Told.{PowersRefused};

use crate::laws::bounds_are_of_parameters;
use crate::listing::counts_work;
use crate::powers_fault::PowersFault;
use base_poly::Poly;
use bound_compare::laws::powers_keep_worth;
use bound_compare::{PowerFault, PowerForm, is_flat, powers, push_not_flat_line, push_powers_line};
use bound_infer::{Line, Verified};
use cost_free::Meter;
use raml_syntax::{FunId, Param, Program, Ty};
use report_text::{meter_name, name_at, push_calls_line, push_no_bound_line};
use share_normal::NormProgram;
use std::alloc::{AllocError, Global};

/// What is told of a function and a meter.
#[derive(Debug, Drop)]
pub(crate) enum PowerLine {
    /// The powers of a bound.
    Powers(PowerForm),
    /// There is a bound, but the function is not flat.
    NotFlat,
    /// There is no bound.
    NoBound,
    /// There is none, since the group calls this function, which has none.
    Calls(FunId),
}

/// The bounds of flat functions as powers of the element counts of their arguments: lines for all functions,
/// in the order of the source.
///
/// `Leaves` at the first bound whose powers do not fit 128 bits.
pub fn power_lines(
    alloc: Global,
    program: &NormProgram<'_>,
    verified: &Verified<'_, '_>,
) -> Result<String, PowersFault>
    requires program { verified.now.program ≡ program.now }
    ensures lines { IfOk result (λ text.
        ArePowerLines (source_in verified.now.program) (program_in verified.now.program) verified.now.certificate (string_bytes text)) }
    ensures leaves { IfErr result
        (PowersRefused (source_in verified.now.program) (program_in verified.now.program) verified.now.certificate) }
{
    each_function(alloc, program.source(), verified)
}

// Those of each function of the source.
fn each_function(
    alloc: Global,
    program: &Program,
    verified: &Verified<'_, '_>,
) -> Result<String, PowersFault>
    requires program { program_of program.now ≡ source_in verified.now.program }
    requires few { length (program_of program.now) ≤ 256 }
    ensures lines { IfOk result (λ text.
        ArePowerLines (source_in verified.now.program) (program_in verified.now.program) verified.now.certificate (string_bytes text)) }
    ensures leaves { IfErr result
        (PowersRefused (source_in verified.now.program) (program_in verified.now.program) verified.now.certificate) }
{
    let mut text = String::new(alloc);
    for place in 0..program.funs.len() {
        push_function(alloc, &mut text, program, verified, FunId(place as u32))?;
    }
    Ok(text)
}

// Appends the lines of a function. All before them fit.
fn push_function(
    alloc: Global,
    text: &mut String,
    program: &Program,
    verified: &Verified<'_, '_>,
    fun: FunId,
) -> Result<(), PowersFault>
    requires program { program_of program.now ≡ source_in verified.now.program }
    requires fun { fun.0 < length (source_in verified.now.program) }
    requires before { AllFitBelow (source_in verified.now.program) (program_in verified.now.program) verified.now.certificate fun.0 }
    ensures lines { OnOk result
        (HasPowerLines (source_in verified.now.program) (program_in verified.now.program) verified.now.certificate fun.0
        (string_bytes text.old) (string_bytes text.new)) }
    ensures leaves { IfErr result
        (PowersRefused (source_in verified.now.program) (program_in verified.now.program) verified.now.certificate) }
{
    let types = parameter_types(alloc, &program.funs[fun.0 as usize].params)?;
    push_line(alloc, text, program, verified, fun, &types, Meter::Ticks)?;
    push_line(alloc, text, program, verified, fun, &types, Meter::Cells)?;
    if counts_work(verified) {
        return push_line(alloc, text, program, verified, fun, &types, Meter::Work);
    }
    Ok(())
}

// The types of parameters.
fn parameter_types(alloc: Global, params: &[Param]) -> Result<Vec<Ty>, AllocError>
    ensures { IfOk result (λ types. context_of types.items ≡ types_in params.now) }
{
    let mut types = Vec::with_capacity(alloc, params.len())?;
    for param in params {
        types.push(param.ty.copy(alloc)?)?;
    }
    Ok(types)
}

// Appends the line of a function and a meter. All before it fit.
fn push_line(
    alloc: Global,
    text: &mut String,
    program: &Program,
    verified: &Verified<'_, '_>,
    fun: FunId,
    types: &[Ty],
    meter: Meter,
) -> Result<(), PowersFault>
    requires program { program_of program.now ≡ source_in verified.now.program }
    requires fun { fun.0 < length (source_in verified.now.program) }
    requires types { (g : Function) → slice_get (source_in verified.now.program) fun.0 ≡ Some g → context_of types.now ≡ types_of g }
    requires meter { Contains (meters (has_work verified.now.certificate)) meter }
    requires before { AllFitBefore (source_in verified.now.program) (program_in verified.now.program) verified.now.certificate fun.0 meter }
    ensures line { OnOk result
        (HasPowerLine (source_in verified.now.program) (program_in verified.now.program) verified.now.certificate fun.0 meter
        (string_bytes text.old) (string_bytes text.new)) }
    ensures leaves { IfErr result
        (PowersRefused (source_in verified.now.program) (program_in verified.now.program) verified.now.certificate) }
{
    let line = power_line(alloc, verified, fun, types, meter)?;
    push_told(text, program, fun, meter, &line)?;
    Ok(())
}

// What is told of a function and a meter.
fn power_line(
    alloc: Global,
    verified: &Verified<'_, '_>,
    fun: FunId,
    types: &[Ty],
    meter: Meter,
) -> Result<PowerLine, PowersFault>
    requires fun { fun.0 < length (source_in verified.now.program) }
    requires types { (g : Function) → slice_get (source_in verified.now.program) fun.0 ≡ Some g → context_of types.now ≡ types_of g }
    requires meter { Contains (meters (has_work verified.now.certificate)) meter }
    ensures told { IfOk result (λ line. (g : Function) → slice_get (source_in verified.now.program) fun.0 ≡ Some g →
        ToldInPowers (program_in verified.now.program) verified.now.certificate fun.0 g meter (told_of line)) }
    ensures written { IfOk result CanBeWritten }
    ensures fits { OnOk result
        (FitsAt (source_in verified.now.program) (program_in verified.now.program) verified.now.certificate fun.0 meter) }
    ensures leaves { IfErr result
        (LeavesHere (source_in verified.now.program) (program_in verified.now.program) verified.now.certificate fun.0 meter) }
{
    bounds_are_of_parameters();
    let _functions = verified.checked().program().functions();
    let _certificate = verified.certificate();
    match verified.line(alloc, fun, meter)? {
        Line::Bound(poly) => match in_powers(alloc, &poly, types) {
            Ok(line) => Ok(line),
            Err(PowerFault::Leaves) => Err(PowersFault::Leaves { fun, meter }),
            Err(PowerFault::NoMemory) => Err(PowersFault::NoMemory),
        },
        Line::NoBound => Ok(PowerLine::NoBound),
        Line::Calls(callee) => Ok(PowerLine::Calls(callee)),
    }
}

// What is told of a bound.
fn in_powers(alloc: Global, poly: &Poly, types: &[Ty]) -> Result<PowerLine, PowerFault>
    requires poly { IsPoly poly.now }
    requires tuples { All (λ t. AreIndices t.0 (context_of types.now) × (degrees t.0 ≤ 4)) (terms_of poly.now) }
    ensures told { IfOk result (λ line. IsPowersOf (context_of types.now) (Bound (den_of poly.now) (terms_of poly.now)) (told_of line)) }
    ensures written { IfOk result CanBeWritten }
    ensures fits { OnOk result (are_flat (context_of types.now) ≡ true → Fits (den_of poly.now) (terms_of poly.now)) }
    ensures leaves { IsErrOf result PowerFault.Leaves → (are_flat (context_of types.now) ≡ true)
        × Leaves (den_of poly.now) (terms_of poly.now) }
{
    powers_keep_worth();
    if is_flat(types) {
        Ok(PowerLine::Powers(powers(alloc, poly, types)?))
    } else {
        Ok(PowerLine::NotFlat)
    }
}

// Appends the line.
fn push_told(
    text: &mut String,
    program: &Program,
    fun: FunId,
    meter: Meter,
    line: &PowerLine,
) -> Result<(), AllocError>
    requires { CanBeWritten line.now }
    ensures { OnOk result (string_bytes text.new ≡ string_bytes text.old
        ++ power_line (program_of program.now) (name_at (program_of program.now) fun.0) meter (told_of line.now)) }
{
    let name = name_at(program, fun);
    match line {
        PowerLine::Powers(form) => push_powers_line(text, name, meter_name(meter), form),
        PowerLine::NotFlat => push_not_flat_line(text, name, meter_name(meter)),
        PowerLine::NoBound => push_no_bound_line(text, name, meter),
        PowerLine::Calls(callee) => push_calls_line(text, name, meter, name_at(program, *callee)),
    }
}
