// Functions whose bounds have the highest degree.
ghost use Rattle.std.specs.Prelude.{◌≡◌, IfSome};
ghost use Rattle.call_groups.specs.Read.{ids_of};
ghost use Rattle.explain_reasons.specs.Asked.{IsAsked, program_in, found_in};
ghost use Rattle.explain_reasons.specs.Degrees as d;
ghost use Rattle.explain_reasons.specs.Degrees.{CallsOfDegree};
ghost use Rattle.explain_reasons.specs.Read.{IsOfDegree};

use crate::asked::Asked;
use explain_degrees::{Finding, Findings};
use explain_lines::is_unbounded;
use explain_mending::callees;
use raml_syntax::FunId;

/// Whether there is a bound of this degree.
fn has_degree(finding: &Finding, degree: u8) -> bool
    ensures { result ≡ d.has_degree degree finding.now }
{
    match finding {
        Finding::Bound { degree: found, .. } => *found == degree,
        Finding::NoBound { .. } | Finding::Calls { .. } | Finding::Refused => false,
    }
}

/// Whether the second has a bound of this degree of some meter of which the first has none.
fn meets(caller: &Findings, callee: &Findings, degree: u8) -> bool
    ensures { result ≡ d.meets degree caller.now callee.now }
{
    is_unbounded(&caller.ticks) && has_degree(&callee.ticks, degree)
        || is_unbounded(&caller.cells) && has_degree(&callee.cells, degree)
        || is_unbounded(&caller.work) && has_degree(&callee.work, degree)
}

fn meets_at(found: &[Findings], caller: FunId, callee: FunId, degree: u8) -> bool
    ensures { result ≡ d.meets_at found.now degree caller.0 callee.0 }
{
    match found.get(caller.0 as usize) {
        Some(first) => match found.get(callee.0 as usize) {
            Some(second) => meets(first, second, degree),
            None => false,
        },
        None => false,
    }
}

fn one_of_degree(found: &[Findings], caller: FunId, funs: &[FunId], degree: u8) -> Option<FunId>
    ensures { IfSome result (IsOfDegree found.now caller funs.now degree) }
{
    for fun in funs {
        if meets_at(found, caller, *fun, degree) {
            return Some(*fun);
        }
    }
    None
}

/// A function that one of the group calls, with a bound of this degree of a meter of which the caller has none.
pub(crate) fn callee_of_degree<'s, 'a>(
    asked: Asked<'s, 'a>,
    group: &[FunId],
    degree: u8,
) -> Option<FunId>
    requires { IsAsked asked }
    ensures { IfSome result (λ callee. CallsOfDegree (program_in asked.entry) (found_in asked.entry) (ids_of group.now) callee.0 degree) }
{
    for fun in group {
        let one = one_of_degree(
            asked.original.found,
            *fun,
            callees(asked.groups, *fun),
            degree,
        );
        if one.is_some() {
            return one;
        }
    }
    None
}
