// How large a plan is.
use index_shift::Entry;
use rules_walk::{Called, Plan, Step};
use std::rc::Rc;

/// About how many entries the maps of a plan have: a bound form has at each budget as many as at its
/// greatest one.
#[cycle(weight)]
pub fn weight(plan: &Plan) -> usize {
    match plan {
        Plan::Ends(_, _, steps) => steps_weight(steps),
        Plan::Pays(_, _, rest) => weight(rest),
        Plan::Moves(_, step, rest) => after(step, rest),
        Plan::Forks(_, step, first, other, second) => {
            after(step, first).saturating_add(after(other, second))
        }
        Plan::Shares(_, _, step, rest) => after(step, rest),
        Plan::Calls(_, called) => called_weight(called),
        Plan::Lets(_, parts, firsts, _, rest) => parts
            .list()
            .len()
            .saturating_add(bound_weight(firsts))
            .saturating_add(weight(rest)),
    }
}

// A change of the context, and the rest.
#[cycle(weight)]
fn after(step: &Step, rest: &Plan) -> usize {
    step.entries.len().saturating_add(weight(rest))
}

// A bound form at all of its budgets.
#[cycle(weight)]
fn bound_weight(firsts: &[Rc<Plan>]) -> usize {
    if firsts.is_empty() {
        return 0;
    }
    weight(&firsts[0]).saturating_mul(firsts.len())
}

fn steps_weight(steps: &[Step]) -> usize {
    let mut count: usize = 0;
    for step in steps {
        count = count.saturating_add(step.entries.len());
    }
    count
}

fn called_weight(called: &Called) -> usize {
    entries_weight(&called.args_from).saturating_add(entries_weight(&called.result_from))
}

fn entries_weight(maps: &[Vec<Entry>]) -> usize {
    let mut count: usize = 0;
    for entries in maps {
        count = count.saturating_add(entries.len());
    }
    count
}
