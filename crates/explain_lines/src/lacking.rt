// Functions without a bound.
ghost use Rattle.std.specs.Prelude.{◌≡◌};
ghost use Rattle.raml_syntax.specs.Read.{place_in};
ghost use Rattle.call_groups.specs.Read.{ids_of};
ghost use Rattle.explain_lines.specs.Lines as l;

use explain_degrees::{Finding, Findings};
use raml_syntax::FunId;

/// Whether a bound is found.
pub fn is_bounded(finding: &Finding) -> bool
    ensures { result ≡ l.is_bounded finding.now }
{
    matches!(finding, Finding::Bound { .. })
}

/// Whether an analysis was made, and none found a bound.
pub fn is_unbounded(finding: &Finding) -> bool
    ensures { result ≡ l.is_unbounded finding.now }
{
    matches!(finding, Finding::NoBound { .. } | Finding::Calls { .. })
}

/// Whether there is no bound of some meter.
pub fn lacks(findings: &Findings) -> bool
    ensures { result ≡ l.lacks findings.now }
{
    is_unbounded(&findings.ticks) || is_unbounded(&findings.cells) || is_unbounded(&findings.work)
}

/// Whether the function has no bound of some meter.
pub fn lacks_at(all: &[Findings], fun: FunId) -> bool
    ensures { result ≡ l.lacks_at all.now fun.0 }
{
    match all.get(fun.0 as usize) {
        Some(findings) => lacks(findings),
        None => false,
    }
}

/// The first of these functions that has no bound of some meter.
pub fn first_lacking(all: &[Findings], group: &[FunId]) -> Option<FunId>
    ensures { place_in result ≡ l.first_lacking all.now (ids_of group.now) }
{
    match group {
        [] => None,
        [fun, rest @ ..] => {
            if lacks_at(all, *fun) {
                Some(*fun)
            } else {
                first_lacking(all, rest)
            }
        }
    }
}
