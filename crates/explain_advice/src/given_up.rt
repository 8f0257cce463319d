// Analyses that are given up.
ghost use Rattle.std.specs.Prelude.{◌≡◌, ◌++◌, ◌∷◌, [], map, cond, IfOk, OnOk, string_bytes};
ghost use Rattle.raml_syntax.specs.Read.{function_of, program_of};
ghost use Rattle.explain_advice.specs.Advice.{IsGivenUpAdded};
ghost use Rattle.explain_advice.specs.GivenUp as g;
ghost use Rattle.explain_advice.specs.Information.{information_in, informations_in};

use crate::advised::Advised;
use explain_degrees::Findings;
use explain_faults::marked;
use explain_lines::is_bounded;
use lsp_language::{Diagnostic, Insight, Severity};
use raml_syntax::Fun;
use std::alloc::{AllocError, Global};

/// The code of what is told where an analysis is given up.
const CODE: &str = "given-up";

/// Adds at each function of which not all bounds are known that the analysis of this degree took more than so many pivots.
pub fn add_given_up(
    alloc: Global,
    insight: &mut Insight,
    advised: &Advised<'_>,
    degree: u8,
    pivots: usize,
) -> Result<(), AllocError>
    ensures { OnOk result (IsGivenUpAdded degree pivots (program_of advised.now.program.now) advised.now.found.now
        insight.old insight.new) }
{
    let message = message(alloc, degree, pivots)?;
    let diagnostics = &mut insight.diagnostics;
    push_all(
        alloc,
        diagnostics,
        advised.source,
        &advised.program.funs,
        advised.found,
        &message,
    )
}

/// Appends this of each of the functions of which not all bounds are known.
fn push_all(
    alloc: Global,
    diagnostics: &mut Vec<Diagnostic>,
    source: &[u8],
    functions: &[Fun],
    found: &[Findings],
    message: &str,
) -> Result<(), AllocError>
    ensures { OnOk result (informations_in diagnostics.new.items
        ≡ informations_in diagnostics.old.items ++ g.of_functions message.now (map function_of functions.now) found.now) }
{
    match functions {
        [] => Ok(()),
        [function, functions @ ..] => match found {
            [] => Ok(()),
            [findings, found @ ..] => {
                push_if(alloc, diagnostics, source, function, findings, message)?;
                push_all(alloc, diagnostics, source, functions, found, message)
            }
        },
    }
}

/// Appends this of a function, unless all its bounds are known.
fn push_if(
    alloc: Global,
    diagnostics: &mut Vec<Diagnostic>,
    source: &[u8],
    function: &Fun,
    findings: &Findings,
    message: &str,
) -> Result<(), AllocError>
    ensures { OnOk result (informations_in diagnostics.new.items ≡ informations_in diagnostics.old.items
        ++ cond (g.are_bounded findings.now) [] (g.of_function message.now (function_of function.now) ∷ [])) }
{
    if !are_bounded(findings) {
        diagnostics.push(given_up(alloc, source, function, message)?)?;
    }
    Ok(())
}

/// Whether the bounds of all meters are known.
fn are_bounded(findings: &Findings) -> bool
    ensures { result ≡ g.are_bounded findings.now }
{
    is_bounded(&findings.ticks) && is_bounded(&findings.cells) && is_bounded(&findings.work)
}

/// This message at the `fun` of a function.
fn given_up(
    alloc: Global,
    source: &[u8],
    function: &Fun,
    message: &str,
) -> Result<Diagnostic, AllocError>
    ensures { IfOk result (λ d. information_in d ≡ g.of_function message.now (function_of function.now)) }
{
    Ok(Diagnostic {
        span: marked(source, function.at.0 as usize),
        severity: Severity::Information,
        code: Some(String::from_str(alloc, CODE)?),
        message: String::from_str(alloc, message)?,
        related: Vec::new(alloc),
    })
}

/// That the analysis of a degree took more than so many pivots.
fn message(alloc: Global, degree: u8, pivots: usize) -> Result<String, AllocError>
    ensures { IfOk result (λ message. string_bytes message ≡ g.message degree pivots) }
{
    format!(in alloc;
        "the analysis of degree {degree} was given up: it takes more than {pivots} pivots (--budget)"
    )
}
