// Tasks that wait for a bound.
ghost use Rattle.std.specs.Prelude.{◌≡◌, ◌≤◌, ◌<◌, ◌^◌, ◌&&◌, not, ℕ, true, false, List, length, take, IsTrue, IfSome, IfNone};
ghost use Rattle.std.specs.Option.{option_map};
ghost use Rattle.raml_syntax.specs.declared.program.FunId.{FunId};
ghost use Rattle.cost_free.specs.Task.{same_meter};
ghost use Rattle.cost_free.specs.Blocked.{is_among, row, in_any, pays_for, has_bound, blocks, least_from, blocked};
ghost use Rattle.cost_free.specs.Called.{is_less, is_unpaid, least_in};
ghost use Rattle.cost_free.specs.Read.{ids_of, lists_of, task_of, outcome_of, outcomes_of};

use crate::task::{Done, Meter, Task, TaskKind};
use call_groups::Groups;
use raml_syntax::FunId;

fn same_meter(one: Meter, other: Meter) -> bool
    ensures { result ≡ same_meter one other }
{
    match one {
        Meter::Ticks => matches!(other, Meter::Ticks),
        Meter::Cells => matches!(other, Meter::Cells),
        Meter::Work => matches!(other, Meter::Work),
    }
}

fn is_among(fun: u32, funs: &[FunId]) -> bool
    ensures { result ≡ is_among fun (ids_of funs.now) }
{
    for item in funs {
        if fun == item.0 {
            return true;
        }
    }
    false
}

fn row(rows: &[Vec<FunId>], place: u32) -> &[FunId]
    ensures { ids_of result.now ≡ row (lists_of rows.now) place }
{
    match rows.get(place as usize) {
        Some(row) => row,
        None => &[],
    }
}

// The place of a group that it is in.
fn place_in(fun: u32, groups: &[Vec<FunId>]) -> Option<usize>
    ensures some { IfSome result
        (λ place. (in_any fun (lists_of groups.now) ≡ true) × (is_among fun (row (lists_of groups.now) place) ≡ true)) }
    ensures none { IfNone result (in_any fun (lists_of groups.now) ≡ false) }
{
    for (place, group) in groups.iter().enumerate() {
        if is_among(fun, group) {
            return Some(place);
        }
    }
    None
}

fn pays_for(meter: Meter, entry: &(Task, Done)) -> bool
    ensures { result ≡ pays_for meter (outcome_of entry.now) }
{
    match entry.1 {
        Done::Solved => match entry.0.kind {
            TaskKind::Free { .. } => false,
            TaskKind::With(other) => same_meter(meter, other),
        },
        Done::Refuted | Done::Calls => false,
    }
}

fn gives_bound(groups: &[Vec<FunId>], meter: Meter, entry: &(Task, Done), fun: u32) -> bool
    ensures { result ≡ pays_for meter (outcome_of entry.now) && is_among fun (row (lists_of groups.now) (outcome_of entry.now).0.group) }
{
    pays_for(meter, entry) && is_among(fun, row(groups, entry.0.group))
}

// The last entries come first: what a group calls is mostly near.
fn has_bound(groups: &[Vec<FunId>], meter: Meter, done: &[(Task, Done)], fun: u32) -> bool
    ensures { result ≡ has_bound (lists_of groups.now) meter (outcomes_of done.now) fun }
{
    let mut left = done.len();
    while left > 0 {
        left -= 1;
        if gives_bound(groups, meter, &done[left], fun) {
            return true;
        }
    }
    false
}

// About where the tasks of a group begin, which come group by group.
fn begin_of(done: &[(Task, Done)], group: usize) -> usize
    ensures { result ≤ length done.now }
{
    let mut low = 0;
    let mut high = done.len();
    while low < high {
        let middle = low + (high - low) / 2;
        if (done[middle].0.group as usize) < group {
            low = middle + 1;
        } else {
            high = middle;
        }
    }
    low
}

// Whether the meter's task of the group is found to be solved, where the group's tasks begin.
fn pays_at(meter: Meter, done: &[(Task, Done)], group: usize) -> bool
    ensures { IsTrue result → (groups : List (List ℕ)) (f : ℕ) → is_among f (row groups group) ≡ true →
        has_bound groups meter (outcomes_of done.now) f ≡ true }
{
    let mut place = begin_of(done, group);
    while place < done.len() && done[place].0.group as usize == group {
        if pays_for(meter, &done[place]) {
            return true;
        }
        place += 1;
    }
    false
}

// The group is one that it is in, and is looked at first.
fn is_bound(
    groups: &[Vec<FunId>],
    meter: Meter,
    done: &[(Task, Done)],
    fun: u32,
    group: usize,
) -> bool
    requires { is_among fun (row (lists_of groups.now) group) ≡ true }
    ensures { result ≡ has_bound (lists_of groups.now) meter (outcomes_of done.now) fun }
{
    pays_at(meter, done, group) || has_bound(groups, meter, done, fun)
}

// The groups before the one at a place.
fn before(groups: &[Vec<FunId>], group: u32) -> &[Vec<FunId>]
    ensures { lists_of result.now ≡ take group (lists_of groups.now) }
{
    let count = group as usize;
    if count < groups.len() {
        &groups[..count]
    } else {
        groups
    }
}

// It is in one of these groups, and has no bound.
fn is_unpaid(
    groups: &[Vec<FunId>],
    group: u32,
    meter: Meter,
    done: &[(Task, Done)],
    fun: u32,
) -> bool
    ensures { result ≡ is_unpaid (lists_of groups.now) group meter (outcomes_of done.now) fun }
{
    match place_in(fun, before(groups, group)) {
        Some(place) => !is_bound(groups, meter, done, fun, place),
        None => false,
    }
}

// It is less than the least so far, or, where there is none, than so many.
fn is_less(fun: u32, least: Option<FunId>, count: u32) -> bool
    ensures { result ≡ is_less fun (option_map (λ (f : FunId). f.0) least) count }
{
    match least {
        Some(least) => fun < least.0,
        None => fun < count,
    }
}

// The least of these functions that is in an earlier group and has no bound, and less than the least so far.
fn least_unpaid(
    groups: &[Vec<FunId>],
    group: u32,
    meter: Meter,
    done: &[(Task, Done)],
    count: u32,
    callees: &[FunId],
    so_far: Option<FunId>,
) -> Option<FunId>
    ensures { option_map (λ (f : FunId). f.0) result
        ≡ least_in (is_unpaid (lists_of groups.now) group meter (outcomes_of done.now)) count (ids_of callees.now)
        (option_map (λ (f : FunId). f.0) so_far) }
{
    let mut least = so_far;
    for callee in callees {
        if is_less(callee.0, least, count) && is_unpaid(groups, group, meter, done, callee.0) {
            least = Some(*callee);
        }
    }
    least
}

// The least that a function of the group calls.
fn least(
    groups: &[Vec<FunId>],
    calls: &[Vec<FunId>],
    group: u32,
    meter: Meter,
    done: &[(Task, Done)],
) -> Option<FunId>
    requires { length calls.now < 2 ^ 32 }
    ensures { option_map (λ (f : FunId). f.0) result
        ≡ least_from (blocks (lists_of groups.now) (lists_of calls.now) group meter (outcomes_of done.now)) (length calls.now) 0 }
{
    let count = calls.len() as u32;
    let members = row(groups, group);
    let mut least = None;
    for member in members {
        least = least_unpaid(
            groups,
            group,
            meter,
            done,
            count,
            row(calls, member.0),
            least,
        );
    }
    least
}

// The same, for groups and calls by themselves.
fn blocked_by(
    groups: &[Vec<FunId>],
    calls: &[Vec<FunId>],
    task: &Task,
    done: &[(Task, Done)],
) -> Option<FunId>
    requires { length calls.now < 2 ^ 32 }
    ensures { option_map (λ (f : FunId). f.0) result
        ≡ blocked (lists_of groups.now) (lists_of calls.now) (task_of task.now) (outcomes_of done.now) }
{
    match task.kind {
        TaskKind::Free { .. } => None,
        TaskKind::With(meter) => least(groups, calls, task.group, meter, done),
    }
}

/// The function that a task waits for: of the functions in earlier groups that its group calls, and
/// that have no bound for the meter, the least. `None` where the task is to be tried.
pub fn blocked(groups: &Groups, task: &Task, done: &[(Task, Done)]) -> Option<FunId>
    ensures { option_map (λ (f : FunId). f.0) result ≡ blocked groups.now.list groups.now.calls (task_of task.now) (outcomes_of done.now) }
{
    blocked_by(groups.list(), groups.all_calls(), task, done)
}
