// How often a region is run, in Markdown.
ghost use Rattle.std.specs.Prelude.{◌≡◌, ◌≤◌, ◌++◌, IfOk, OnOk, string_bytes};
ghost use Rattle.explain_regions.specs.Counter.{IsLexed};
ghost use Rattle.explain_profile.specs.Read.{case_of};
ghost use Rattle.explain_counts.specs.Counts.{at_most, count_text, legend_behind, runs_text, IsCount};

use explain_profile::{Case, Runs, runs_of_region};
use raml_syntax::Pos;
use std::alloc::{AllocError, Global};

/// Appends what names mean, where something has to be said.
fn push_legend(text: &mut String, legend: &str) -> Result<(), AllocError>
    ensures { OnOk result (string_bytes text.new ≡ string_bytes text.old ++ legend_behind legend.now) }
{
    if !legend.is_empty() {
        text.push_str(", `")?;
        text.push_str(legend)?;
        text.push_str("`")?;
    }
    Ok(())
}

/// Appends how often something is run.
fn push_runs(text: &mut String, runs: &Runs) -> Result<(), AllocError>
    ensures { OnOk result (string_bytes text.new ≡ string_bytes text.old ++ runs_text runs.now) }
{
    match runs {
        Runs::AtMost { sum, legend, .. } => push_at_most(text, sum, legend),
        Runs::NoBound => text.push_str("no bound"),
        Runs::NotAnalysed => text.push_str("not analysed"),
    }
}

/// Appends how often something is run at most.
fn push_at_most(text: &mut String, sum: &str, legend: &str) -> Result<(), AllocError>
    ensures { OnOk result (string_bytes text.new ≡ string_bytes text.old ++ at_most sum.now legend.now) }
{
    text.push_str("at most `")?;
    text.push_str(sum)?;
    text.push_str("`")?;
    push_legend(text, legend)
}

/// How often something is run at most by a call of the function of this name.
fn count_text(alloc: Global, name: &str, runs: &Runs) -> Result<String, AllocError>
    ensures { IfOk result (λ text. string_bytes text ≡ count_text name.now runs.now) }
{
    let mut text = String::from_str(alloc, "runs in a call of `")?;
    text.push_str(name)?;
    text.push_str("`: ")?;
    push_runs(&mut text, runs)?;
    Ok(text)
}

/// How often the region that begins there is run at most by a call of the function of the case.
pub(crate) fn count(alloc: Global, case: Case<'_>, region: Pos) -> Result<String, AllocError>
    requires most { case.most ≤ 4 }
    requires lexed { IsLexed case.source.now }
    ensures { IfOk result (λ text. IsCount (case_of case.entry) region.0 (string_bytes text)) }
{
    let runs = runs_of_region(alloc, case, region)?;
    count_text(alloc, case.name, &runs)
}
