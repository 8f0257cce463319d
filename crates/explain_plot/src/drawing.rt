// Pictures and tables by the analysis of one degree.
ghost use Rattle.std.specs.Prelude.{◌≡◌, ◌≢◌, ◌≤◌, ◌<◌, ◌++◌, Some, None, true, length, slice_get, option_map, IfOk, OnOk, string_bytes};
ghost use Rattle.raml_syntax.specs.Tree.{Text, Function};
ghost use Rattle.raml_syntax.specs.Types.{types_of};
ghost use Rattle.raml_syntax.specs.Read.{program_of, function_of};
ghost use Rattle.annot_types.specs.Certificate.{has_work};
ghost use Rattle.rules_plan.specs.Read.{program_in};
ghost use Rattle.bound_infer.specs.declared.refusal.InferFault.TheVariants.{NoMemory};
ghost use Rattle.explain_bounds.specs.Written.{AllCanBeTold};
ghost use Rattle.explain_chart.specs.Chart.{Draws};
ghost use Rattle.explain_chart.specs.Read.{marks_in};
ghost use Rattle.explain_runs.specs.Measure.{CanRun};
ghost use Rattle.explain_marks.specs.Marks.{origin_of};
ghost use Rattle.explain_plot.specs.Calls.{Drawn, EndsAt, cut_text};
ghost use Rattle.explain_plot.specs.Read.{cut_in, text_in};

use crate::call::Told;
use crate::program::Asked;
use crate::table::push_table;
use bound_infer::{InferFault, Verified};
use cost_free::Meter;
use explain_bounds::{Asked as AskedSizes, push_function};
use explain_calls::End;
use explain_chart::{Chart, Mark, draw};
use explain_degrees::{Findings, analyse};
use explain_marks::{Cut, Runs, marks_of};
use raml_syntax::{Fun, Program};
use report_text::meter_name;
use share_normal::NormProgram;
use simple_types::Typed;
use std::alloc::{AllocError, Global};
use std::fmt::Write;

/// Draws these runs, with the bounds of the analysis of the degree, where that is not refused.
pub(crate) fn tell_degree(
    alloc: Global,
    typed: &Typed,
    program: &NormProgram<'_>,
    asked: Asked,
    degree: u8,
    findings: &Findings,
    runs: &Runs<'_>,
    text: &mut String,
    report: &mut String,
) -> Result<Told, AllocError>
    requires source { program.now.source ≡ typed.now }
    requires runs { CanRun (program_of typed.now) }
    requires fun { asked.fun.0 < length (program_of typed.now) }
    requires least { 1 ≤ degree }
    requires most { degree ≤ 4 }
    requires findings { (g : Function) → slice_get (program_of typed.now) asked.fun.0 ≡ Some g → AllCanBeTold (types_of g) findings.now }
    ensures { IfOk result (λ told. (shown part : Text)
        × EndsAt told.end (program_of typed.now) (program_in program.now) asked.fun.0 degree asked.meter (origin_of runs.now)
        (text_in told.picture) shown part
        × (string_bytes text.new ≡ string_bytes text.old ++ shown)
        × (string_bytes report.new ≡ string_bytes report.old ++ part)) }
{
    match analyse(alloc, program, degree) {
        Ok(verified) => {
            let picture = picture(alloc, typed, &verified, asked, findings, runs, text, report)?;
            Ok(Told {
                end: End::Told,
                picture: Some(picture),
            })
        }
        Err(fault) => undrawn(fault),
    }
}

/// Nothing is drawn where the analysis is refused.
fn undrawn(fault: InferFault) -> Result<Told, AllocError>
    ensures told { IfOk result (λ told. told.end ≡ End.NotAnalysed) }
    ensures none { IfOk result (λ told. told.picture ≡ None) }
    ensures refused { IfOk result (λ told. fault ≢ NoMemory) }
{
    let told = Told {
        end: End::NotAnalysed,
        picture: None,
    };
    match fault {
        InferFault::NoMemory => Err(AllocError),
        InferFault::TooLarge { .. } => Ok(told),
        InferFault::Leaves(_) => Ok(told),
    }
}

/// The picture of these runs, with the bounds of the certificate.
fn picture(
    alloc: Global,
    typed: &Typed,
    verified: &Verified<'_, '_>,
    asked: Asked,
    findings: &Findings,
    runs: &Runs<'_>,
    text: &mut String,
    report: &mut String,
) -> Result<String, AllocError>
    requires source { verified.now.program.source ≡ typed.now }
    requires runs { CanRun (program_of typed.now) }
    requires fun { asked.fun.0 < length (program_of typed.now) }
    requires work { has_work verified.now.certificate ≡ true }
    requires findings { (g : Function) → slice_get (program_of typed.now) asked.fun.0 ≡ Some g → AllCanBeTold (types_of g) findings.now }
    ensures { IfOk result (λ svg. (shown part : Text)
        × Drawn (program_of typed.now) (program_in verified.now.program) verified.now.certificate asked.fun.0 asked.meter
        (origin_of runs.now) (string_bytes svg) shown part
        × (string_bytes text.new ≡ string_bytes text.old ++ shown)
        × (string_bytes report.new ≡ string_bytes report.old ++ part)) }
{
    let Asked { fun, meter, .. } = asked;
    let found = marks_of(alloc, typed, verified, fun, meter, runs)?;
    push_table(text, &found.marks)?;
    push_cut(report, found.cut)?;
    let program = typed.program();
    let function = &program.funs[fun.0 as usize];
    let lead = lead(alloc, program, function, findings, meter)?;
    let sizes = sizes(alloc, function, runs)?;
    drawn(alloc, function, meter, &lead, &sizes, &found.marks)
}

/// What the sizes are.
fn sizes(alloc: Global, function: &Fun, runs: &Runs<'_>) -> Result<String, AllocError> {
    let place = match runs {
        Runs::Made(made) => made.along,
        Runs::Given { place, .. } => Some(*place),
    };
    match place.and_then(|place| function.params.get(place)) {
        Some(param) => {
            let name = param.name.text();
            format!(in alloc; "size of {name}")
        }
        None => String::from_str(alloc, "size"),
    }
}

/// Appends where runs end, where they do.
fn push_cut(report: &mut String, cut: Option<Cut<'_>>) -> Result<(), AllocError>
    ensures { OnOk result (string_bytes report.new ≡ string_bytes report.old ++ cut_text (option_map cut_in cut.entry)) }
{
    match cut {
        Some(Cut::Size(size)) => write!(
            report,
            "explain: some runs of size {size}, and all of greater ones, are not drawn: \
             they need more than 2000000 instructions together, or arguments of 20000 cells\n"
        ),
        Some(Cut::File(name)) => write!(
            report,
            "explain: the run on {name}, and those on files behind it, are not drawn: \
             they need more than 2000000 instructions together, or arguments of 20000 cells\n"
        ),
        None => Ok(()),
    }
}

/// The line of `explain bounds` for a function and a meter.
fn lead(
    alloc: Global,
    program: &Program,
    function: &Fun,
    findings: &Findings,
    meter: Meter,
) -> Result<String, AllocError>
    requires { AllCanBeTold (types_of (function_of function.now)) findings.now }
{
    let mut lines = Vec::new(alloc);
    match push_function(
        alloc,
        &mut lines,
        program,
        function,
        findings,
        &AskedSizes::Nothing,
    ) {
        Ok(()) => match lines.get(place_of(meter)) {
            Some(line) => String::from_str(alloc, line),
            None => Ok(String::new(alloc)),
        },
        Err(_) => Err(AllocError),
    }
}

/// Which of the lines of a function is that of the meter.
fn place_of(meter: Meter) -> usize {
    match meter {
        Meter::Ticks => 0,
        Meter::Cells => 1,
        Meter::Work => 2,
    }
}

/// The chart of runs.
fn drawn(
    alloc: Global,
    function: &Fun,
    meter: Meter,
    lead: &str,
    sizes: &str,
    marks: &[Mark<'_>],
) -> Result<String, AllocError>
    ensures { IfOk result (λ svg. Draws (marks_in marks.now) (string_bytes svg)) }
{
    let name = function.name.text();
    let costs = meter_name(meter);
    let title = format!(in alloc; "Measured runs of {name}: {costs}")?;
    let description = format!(in alloc;
        "A point for what each run of {name} cost in {costs}, by the size of its arguments, \
         below a line for the bound at these arguments. \
         Both axes are logarithmic. The title of a point tells its numbers."
    )?;
    draw(
        alloc,
        &Chart {
            title: &title,
            lead,
            description: &description,
            sizes,
            measured: measured(meter),
            promised: promised(meter),
            marks,
        },
    )
}

/// What points are.
fn measured(meter: Meter) -> &'static str {
    match meter {
        Meter::Ticks => "measured: ticks of a run",
        Meter::Cells => "measured: cells that a run takes",
        Meter::Work => "measured: instructions of a run",
    }
}

/// What the line is.
fn promised(meter: Meter) -> &'static str {
    match meter {
        Meter::Ticks => "the bound at the arguments",
        Meter::Cells => "the bound at the arguments",
        Meter::Work => "4 times the bound of work",
    }
}
