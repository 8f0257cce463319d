// Where the unknowns of a function's arguments stand.
ghost use Rattle.std.specs.Prelude.{◌≡◌, ◌≤◌, map, length};
ghost use Rattle.call_groups.specs.Read.{ids_of};
ghost use Rattle.rules_spec.specs.Tasks.{sides_count};
ghost use Rattle.rules_plan.specs.Read.{body_of};
ghost use Rattle.bound_contract.specs.System.{first_in, count_in};

use raml_syntax::FunId;
use rules_plan::Body;

/// The unknowns of a function's arguments: the first, and how many there are.
#[derive(Clone, Copy)]
pub(crate) struct Span {
    pub first: usize,
    pub count: usize,
}

/// Those of a function of a group, whose bodies these are.
pub(crate) fn span_of(bodies: &[Body<'_>], group: &[FunId], fun: FunId) -> Span
    requires few { sides_count (map body_of bodies.now) ≤ 2000 }
    requires each { length bodies.now ≡ length group.now }
    ensures first { result.first ≡ first_in (map body_of bodies.now) (ids_of group.now) fun.0 0 }
    ensures count { result.count ≡ count_in (map body_of bodies.now) (ids_of group.now) fun.0 }
{
    let mut first = 0;
    for place in 0..bodies.len() {
        if group[place].0 == fun.0 {
            return Span {
                first,
                count: bodies[place].args,
            };
        }
        first += bodies[place].args + bodies[place].result;
    }
    Span { first, count: 0 }
}
