// The lines of verdicts.
ghost use Rattle.std.specs.Prelude.{◌≡◌, ◌≤◌, ◌++◌, IfOk, IfSome, OnOk, codes, string_bytes};
ghost use Rattle.std.specs.List.{All};
ghost use Rattle.raml_syntax.specs.Tree.{Text};
ghost use Rattle.raml_syntax.specs.Types.{types_of};
ghost use Rattle.raml_syntax.specs.Read.{program_of, function_of};
ghost use Rattle.base_poly.specs.Read.{context_of};
ghost use Rattle.bound_file.specs.Read.{line_of, IsSound};
ghost use Rattle.report_text.specs.Names.{meter_text, name_at};
ghost use Rattle.explain_algebra.specs.Algebra.{texts};
ghost use Rattle.explain_bounds.specs.Lines.{names_of, legend_behind};
ghost use Rattle.explain_verdicts.specs.Fractions.{ArePlaced};
ghost use Rattle.explain_verdicts.specs.Reads.{bound_of, ReadsDeclared};
ghost use Rattle.explain_verdicts.specs.Line.{is_kept, verdict_text, all_sizes, shared, no_bound, calls_unbounded};
ghost use Rattle.explain_verdicts.specs.Line.{TellsExcess, TellsBound, TellsFound, TellsVerdict, IsVerdictLine};
ghost use Rattle.explain_verdicts.specs.Read.{found_of};
ghost use Rattle.explain_verdicts.specs.Written.{IsFraction, AreFractions, IsFound};

use crate::declared::read_declared;
use crate::exceeding::{Params, push_exceeding};
use crate::fraction::{Fraction, fractions_of};
use crate::judged::{Judged, Verdict};
use base_poly::Poly;
use bound_file::DeclLine;
use cost_free::Meter;
use explain_algebra::size_names;
use explain_bounds::{parameter_names, parameter_types, push_legend};
use explain_reading::read_bound;
use raml_syntax::{Fun, FunId, Program};
use report_text::{meter_name, name_at};
use std::alloc::{AllocError, Global};
use std::fmt::Write;

/// The line of a declared bound of this function of a program, at a degree: whether it is kept, with what is declared and
/// what was found in algebra. It has no newline.
pub fn verdict_line(
    alloc: Global,
    program: &Program,
    fun: &Fun,
    degree: u8,
    line: &DeclLine,
    judged: &Judged,
) -> Result<String, AllocError>
    requires degree { degree ≤ 4 }
    requires sound { IsSound line.now }
    requires placed { ArePlaced (types_of (function_of fun.now)) degree (line_of line.now).bound }
    requires found { IfSome judged.now.found (IsFound (types_of (function_of fun.now))) }
    ensures { IfOk result (λ text.
        IsVerdictLine (program_of program.now) (function_of fun.now) degree (line_of line.now) judged.now.verdict
        (found_of judged.now) (string_bytes text)) }
{
    let types = parameter_types(alloc, &fun.params)?;
    let names = parameter_names(alloc, &fun.params)?;
    let fractions = fractions_of(alloc, fun, degree, line)?;
    let params = Params {
        types: &types,
        names: &names,
    };
    let mut text = both_names(alloc, fun, line.meter)?;
    push_verdict(
        alloc, &mut text, program, degree, &fractions, judged, params,
    )?;
    Ok(text)
}

// The names of a function and a meter.
fn both_names(alloc: Global, fun: &Fun, meter: Meter) -> Result<String, AllocError>
    ensures { IfOk result (λ text. string_bytes text ≡ (function_of fun.now).name ++ (codes " " ++ meter_text meter)) }
{
    let name = fun.name.text();
    format!(in alloc; "{name} {}", meter_name(meter))
}

// Appends the verdict and both bounds, behind both names.
fn push_verdict(
    alloc: Global,
    text: &mut String,
    program: &Program,
    degree: u8,
    fractions: &[Fraction],
    judged: &Judged,
    params: Params<'_>,
) -> Result<(), AllocError>
    requires fractions { AreFractions (context_of params.types.now) fractions.now }
    requires found { IfSome judged.now.found (IsFound (context_of params.types.now)) }
    ensures { OnOk result ((told : Text)
        × TellsVerdict (program_of program.now) (context_of params.entry.types.now) (texts params.entry.names.now) degree
        fractions.now judged.now.verdict (found_of judged.now) told
        × (string_bytes text.new ≡ string_bytes text.old ++ told)) }
{
    let declared = read_declared(alloc, fractions, params.types, params.names)?;
    let word = verdict_name(&judged.verdict);
    let sum = &declared.sum;
    write!(text, " {word}: ≤ {sum} declared,")?;
    push_found(
        alloc,
        text,
        program,
        degree,
        fractions,
        judged,
        &declared.legend,
        params,
    )
}

/// The word for a verdict.
pub(crate) fn verdict_name(verdict: &Verdict) -> &'static str
    ensures { result.now ≡ verdict_text (is_kept verdict.now) }
{
    if is_kept(verdict) { "kept" } else { "not kept" }
}

fn is_kept(verdict: &Verdict) -> bool
    ensures { result ≡ is_kept verdict.now }
{
    match verdict {
        Verdict::Kept => true,
        Verdict::NotKept | Verdict::Calls(_) => false,
    }
}

// Appends what was found, with what the names in the line mean, of which those of what is declared mean this.
fn push_found(
    alloc: Global,
    text: &mut String,
    program: &Program,
    degree: u8,
    fractions: &[Fraction],
    judged: &Judged,
    legend: &str,
    params: Params<'_>,
) -> Result<(), AllocError>
    requires fractions { AreFractions (context_of params.types.now) fractions.now }
    requires found { IfSome judged.now.found (IsFound (context_of params.types.now)) }
    ensures { OnOk result ((told : Text)
        × TellsFound (program_of program.now) (context_of params.entry.types.now) (texts params.entry.names.now) degree
        fractions.now legend.now judged.now.verdict (found_of judged.now) told
        × (string_bytes text.new ≡ string_bytes text.old ++ told)) }
{
    match (&judged.verdict, &judged.found) {
        (Verdict::Calls(callee), _) => push_calls(text, program, degree, *callee, legend),
        (_, None) => push_no_bound(text, degree, legend),
        (verdict, Some(found)) => {
            let kept = is_kept(verdict);
            push_bound(alloc, text, found, fractions, kept, legend, params)
        }
    }
}

// Appends that there is no bound.
fn push_no_bound(text: &mut String, degree: u8, legend: &str) -> Result<(), AllocError>
    ensures { OnOk result (string_bytes text.new ≡ string_bytes text.old ++ (no_bound degree ++ legend_behind legend.now)) }
{
    write!(text, " no bound of degree {degree}")?;
    push_legend(text, legend)
}

// Appends that there is no bound, since a function that is called has none.
fn push_calls(
    text: &mut String,
    program: &Program,
    degree: u8,
    callee: FunId,
    legend: &str,
) -> Result<(), AllocError>
    ensures { OnOk result (string_bytes text.new ≡ string_bytes text.old
        ++ (calls_unbounded degree (name_at (program_of program.now) callee.0) ++ legend_behind legend.now)) }
{
    push_unbounded(text, program, degree, callee)?;
    push_legend(text, legend)
}

fn push_unbounded(
    text: &mut String,
    program: &Program,
    degree: u8,
    callee: FunId,
) -> Result<(), AllocError>
    ensures { OnOk result (string_bytes text.new
        ≡ string_bytes text.old ++ calls_unbounded degree (name_at (program_of program.now) callee.0)) }
{
    write!(text, " no bound of degree {degree}")?;
    write!(text, ": calls {}, which has none", name_at(program, callee))
}

// Appends the bound that was found, and where the line is not kept what exceeds.
fn push_bound(
    alloc: Global,
    text: &mut String,
    found: &Poly,
    fractions: &[Fraction],
    kept: bool,
    legend: &str,
    params: Params<'_>,
) -> Result<(), AllocError>
    requires fractions { AreFractions (context_of params.types.now) fractions.now }
    requires found { IsFound (context_of params.types.now) found.now }
    ensures { OnOk result ((told : Text)
        × TellsBound (context_of params.entry.types.now) (texts params.entry.names.now) fractions.now legend.now kept
        (bound_of found.now) told
        × (string_bytes text.new ≡ string_bytes text.old ++ told)) }
{
    let reading = read_bound(alloc, found, params.types, params.names)?;
    text.push_str(" ≤ ")?;
    text.push_str(&reading.sum)?;
    text.push_str(" found")?;
    push_excess(alloc, text, found, fractions, kept, params)?;
    push_shared(alloc, text, &reading.legend, legend, params)
}

// Appends what exceeds where a line is not kept, and nothing where it is.
fn push_excess(
    alloc: Global,
    text: &mut String,
    found: &Poly,
    fractions: &[Fraction],
    kept: bool,
    params: Params<'_>,
) -> Result<(), AllocError>
    requires fractions { All (IsFraction (context_of params.types.now)) fractions.now }
    requires found { IsFound (context_of params.types.now) found.now }
    ensures { OnOk result ((told : Text)
        × TellsExcess kept (context_of params.entry.types.now) (texts params.entry.names.now) fractions.now (bound_of found.now) told
        × (string_bytes text.new ≡ string_bytes text.old ++ told)) }
{
    if kept {
        Ok(())
    } else {
        push_exceeding(alloc, text, found, fractions, params)
    }
}

// Appends what the names of both bounds mean.
fn push_shared(
    alloc: Global,
    text: &mut String,
    one: &str,
    other: &str,
    params: Params<'_>,
) -> Result<(), AllocError>
    ensures { OnOk result (string_bytes text.new ≡ string_bytes text.old
        ++ legend_behind (shared (all_sizes (context_of params.entry.types.now) (texts params.entry.names.now)) one.now other.now)) }
{
    if one.is_empty() {
        push_legend(text, other)
    } else if other.is_empty() || one == other {
        push_legend(text, one)
    } else {
        push_all_sizes(alloc, text, params)
    }
}

// Appends what the names of all sizes mean.
fn push_all_sizes(alloc: Global, text: &mut String, params: Params<'_>) -> Result<(), AllocError>
    ensures { OnOk result (string_bytes text.new ≡ string_bytes text.old
        ++ legend_behind (all_sizes (context_of params.entry.types.now) (texts params.entry.names.now))) }
{
    let legend = all_sizes(alloc, params)?;
    push_legend(text, &legend)
}

// What the names of all sizes mean.
fn all_sizes(alloc: Global, params: Params<'_>) -> Result<String, AllocError>
    ensures { IfOk result (λ text. string_bytes text
        ≡ all_sizes (context_of params.entry.types.now) (texts params.entry.names.now)) }
{
    let names = size_names(alloc, params.types, params.names)?;
    let mut text = String::new(alloc);
    explain_algebra::push_legend(&mut text, &names, params.names)?;
    Ok(text)
}
