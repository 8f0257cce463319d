// What is drawn of a function.
ghost use Rattle.std.specs.Prelude.{◌≡◌, ◌<◌, ◌++◌, IfOk, length, string_bytes};
ghost use Rattle.raml_syntax.specs.Tree.{Text};
ghost use Rattle.raml_syntax.specs.Read.{program_of};
ghost use Rattle.explain_runs.specs.Measure.{CanRun};
ghost use Rattle.explain_marks.specs.Marks.{origin_of};
ghost use Rattle.explain_words.specs.Laws.{IsDegree};
ghost use Rattle.explain_plot.specs.Calls.{IsDrawn, degree_of};
ghost use Rattle.explain_plot.specs.Read.{outcome_of};

use crate::call::Told;
use crate::drawing::tell_degree;
use cost_free::Meter;
use explain_bounds::laws::findings_can_be_told;
use explain_calls::push_notes;
use explain_degrees::{Finding, LeastBounds, least_bounds};
use explain_marks::Runs;
use normal_program::normal_form;
use raml_syntax::FunId;
use simple_types::Typed;
use std::alloc::{AllocError, Global};

/// What is asked for.
#[derive(Clone, Copy)]
pub(crate) struct Asked {
    pub(crate) fun: FunId,
    pub(crate) meter: Meter,
    /// The greatest degree to try.
    pub(crate) most: u8,
}

/// Draws these runs, by the analysis that tells most. The table is appended to `text`; which degrees could not be
/// analysed, and what is not drawn, to the report.
pub(crate) fn tell_asked(
    alloc: Global,
    typed: &Typed,
    asked: Asked,
    runs: &Runs<'_>,
    text: &mut String,
    report: &mut String,
) -> Result<Told, AllocError>
    requires runs { CanRun (program_of typed.now) }
    requires fun { asked.fun.0 < length (program_of typed.now) }
    requires range { IsDegree asked.most }
    ensures { IfOk result (λ told. (shown part : Text)
        × IsDrawn (program_of typed.now) asked.fun.0 asked.most asked.meter (origin_of runs.now) (outcome_of told shown part)
        × (string_bytes text.new ≡ string_bytes text.old ++ shown)
        × (string_bytes report.new ≡ string_bytes report.old ++ part)) }
{
    let _program = typed.program();
    let program = normal_form(alloc, typed)?;
    let LeastBounds { functions, refused } = least_bounds(alloc, &program, asked.most)?;
    push_notes(alloc, report, &program, refused)?;
    findings_can_be_told();
    let findings = &functions[asked.fun.0 as usize];
    let degree = degree_of(findings.of(asked.meter));
    tell_degree(
        alloc, typed, &program, asked, degree, findings, runs, text, report,
    )
}

/// The degree of the analysis that tells most.
fn degree_of(finding: &Finding) -> u8
    ensures { result ≡ degree_of finding.now }
{
    match finding {
        Finding::Bound { degree, .. } => (*degree).max(1),
        Finding::NoBound { degree } => (*degree).max(1),
        Finding::Calls { degree, .. } => (*degree).max(1),
        Finding::Refused => 1,
    }
}
