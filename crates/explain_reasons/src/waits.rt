// Functions that a group waits for.
ghost use Rattle.std.specs.Prelude.{◌≡◌, IfSome};
ghost use Rattle.call_groups.specs.Read.{ids_of};
ghost use Rattle.explain_reasons.specs.Asked.{IsAsked, program_in, found_in};
ghost use Rattle.explain_reasons.specs.Read.{IsLackingOutside};
ghost use Rattle.explain_reasons.specs.Waits.{WaitsFor};

use crate::asked::Asked;
use explain_degrees::Findings;
use explain_lines::lacks_at;
use explain_mending::callees;
use raml_syntax::FunId;

/// The first of the functions that has no bound and is not of the group.
fn lacking_outside(found: &[Findings], group: &[FunId], funs: &[FunId]) -> Option<FunId>
    ensures { IfSome result (IsLackingOutside found.now group.now funs.now) }
{
    for fun in funs {
        if lacks_at(found, *fun) && !group.contains(fun) {
            return Some(*fun);
        }
    }
    None
}

/// A function outside of a group that one of the group calls and that has no bound.
pub(crate) fn waits_for<'s, 'a>(asked: Asked<'s, 'a>, group: &[FunId]) -> Option<FunId>
    requires { IsAsked asked }
    ensures { IfSome result (λ callee. WaitsFor (program_in asked.entry) (found_in asked.entry) (ids_of group.now) callee.0) }
{
    for fun in group {
        let outside = lacking_outside(asked.original.found, group, callees(asked.groups, *fun));
        if outside.is_some() {
            return outside;
        }
    }
    None
}
