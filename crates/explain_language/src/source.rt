// What is told of a source.
ghost use Rattle.std.specs.Prelude.{◌≡◌, ◌≤◌, ◌<◌, ◌++◌, List, codes, decimal, length, string_bytes, IfOk, OnOk};
ghost use Rattle.lsp_language.specs.declared.insight.Severity.TheVariants as severity;
ghost use Rattle.raml_syntax.specs.Read.{program_of};
ghost use Rattle.explain_check.specs.Checks.{IsProgramOf, most_bytes};
ghost use Rattle.explain_advice.specs.Advice.{IsAdvised};
ghost use Rattle.explain_faults.specs.Faults.{IsFirst};
ghost use Rattle.explain_reasons.specs.Explanation.{AreReasons};
ghost use Rattle.explain_reasons.specs.declared.reason.Explained.{Explained};
ghost use Rattle.explain_language.specs.Told.{IsAnalysed, IsFaulty, IsLong, IsTold, IsToldWhy, most_tried};

use explain_advice::{Advised, add_advice, add_given_up};
use explain_bounds::laws::findings_can_be_told;
use explain_check::MOST_BYTES;
use explain_degrees::{Findings, LeastWithin};
use explain_faults::{Found, SourceFault, fault_insight, found_in};
use explain_insight::program_insight;
use explain_reasons::{Silent, reasons_of};
use explain_trials::found_within;
use lsp_language::{Diagnostic, Insight, Severity, Span};
use simple_types::Typed;
use std::alloc::{AllocError, Global};

/// What is told of a source: its first fault, or the bounds of its functions at degrees up to `most` whose analyses take no more
/// pivots than these.
pub(crate) fn source_insight(
    alloc: Global,
    source: &[u8],
    most: u8,
    pivots: usize,
) -> Result<Insight, AllocError>
    requires { most ≤ 4 }
    ensures { IfOk result (IsTold most pivots source.now) }
{
    if source.len() as u64 > MOST_BYTES {
        return long_insight(alloc, source);
    }
    match found_in(alloc, source)? {
        Found::Program(typed) => typed_insight(alloc, source, &typed, most, pivots),
        Found::Fault(fault) => faulty_insight(alloc, source, &fault),
    }
}

/// What is told of the source of a typed program.
fn typed_insight(
    alloc: Global,
    source: &[u8],
    typed: &Typed,
    most: u8,
    pivots: usize,
) -> Result<Insight, AllocError>
    requires spelled { IsProgramOf source.now (program_of typed.now) }
    requires most { most ≤ 4 }
    ensures { IfOk result (IsAnalysed most pivots source.now) }
{
    let LeastWithin { found, given_up } = found_within(alloc, typed, most, Some(pivots))?;
    findings_can_be_told();
    let mut insight = program_insight(alloc, source, typed.program(), &found.functions)?;
    tell_why(
        alloc,
        &mut insight,
        source,
        typed,
        &found.functions,
        given_up,
        pivots,
    )?;
    Ok(insight)
}

/// Adds why functions have no bound, or that the analysis of a degree was given up, where analyses found this of the program.
fn tell_why(
    alloc: Global,
    insight: &mut Insight,
    source: &[u8],
    typed: &Typed,
    found: &[Findings],
    given_up: Option<u8>,
    pivots: usize,
) -> Result<(), AllocError>
    requires spelled { IsProgramOf source.now (program_of typed.now) }
    requires count { length found.now ≡ length (program_of typed.now) }
    ensures { OnOk result (IsToldWhy given_up pivots source.now (program_of typed.now) found.now insight.old insight.new) }
{
    match given_up {
        None => advise(alloc, insight, source, typed, found),
        Some(degree) => {
            let advised = Advised {
                source,
                program: typed.program(),
                found,
            };
            add_given_up(alloc, insight, &advised, degree, pivots)
        }
    }
}

/// Adds why functions have no bound, where analyses found this of the program.
fn advise(
    alloc: Global,
    insight: &mut Insight,
    source: &[u8],
    typed: &Typed,
    found: &[Findings],
) -> Result<(), AllocError>
    requires spelled { IsProgramOf source.now (program_of typed.now) }
    requires count { length found.now ≡ length (program_of typed.now) }
    ensures { OnOk result ((reasons : List Explained)
        × AreReasons source.now (program_of typed.now) found.now most_tried reasons
        × IsAdvised source.now (program_of typed.now) found.now reasons insight.old insight.new) }
{
    findings_can_be_told();
    let reasons = reasons_of(alloc, source, typed, found, &mut Silent)?;
    let advised = Advised {
        source,
        program: typed.program(),
        found,
    };
    add_advice(alloc, insight, &advised, &reasons)
}

/// What is told of a source with this fault.
fn faulty_insight(alloc: Global, source: &[u8], fault: &SourceFault) -> Result<Insight, AllocError>
    requires { IsFirst source.now fault.now }
    ensures { IfOk result (IsFaulty source.now) }
{
    fault_insight(alloc, source, fault)
}

/// What is told of a source that is longer than it may be.
fn long_insight(alloc: Global, source: &[u8]) -> Result<Insight, AllocError>
    requires { most_bytes < length source.now }
    ensures { IfOk result (IsLong source.now) }
{
    let mut insight = Insight::new(alloc);
    insight.diagnostics.push(too_long(alloc)?)?;
    Ok(insight)
}

/// That a source is longer than it may be, at its start.
fn too_long(alloc: Global) -> Result<Diagnostic, AllocError>
    ensures start { IfOk result (λ d. d.span.start ≡ 0) }
    ensures severity { IfOk result (λ d. d.severity ≡ severity.Error) }
    ensures message { IfOk result (λ d. string_bytes d.message ≡ codes "longer than " ++ (decimal most_bytes ++ codes " bytes")) }
{
    Ok(Diagnostic {
        span: Span { start: 0, end: 0 },
        severity: Severity::Error,
        code: None,
        message: format!(in alloc; "longer than {MOST_BYTES} bytes")?,
        related: Vec::new(alloc),
    })
}
