// The walk.
ghost use Rattle.std.specs.Prelude.{◌≡◌, ◌*◌, ◌+◌, ◌++◌, ◌∷◌, [], ◌<◌, ◌^◌, map, length, IfOk, OnOk};
ghost use Rattle.rules_spec.specs.Plan as p;
ghost use Rattle.rules_spec.specs.Walk.{at, at_zero, missing, numbered};
ghost use Rattle.rules_walk.specs.Steps.{step_of, part_of};
ghost use Rattle.rules_walk.specs.Read.{mode_of, plan_of, plans_of, called_of, hints_of, known_of, nodes_rows, nodes_index, nodes_left};
ghost use Rattle.rules_walk.specs.Read.{charged};
ghost use Rattle.rules_walk.specs.Place.{walked_at, each_at, part_at, body_walked};

use crate::calls::{is_unpaid, sums};
use crate::entries::{
    all_moved, copies, entries_at, joined, lower_first, moved, number_alone, raise_first,
};
use crate::hint::{Hint, copies_of, later, multiples_of, results_of};
use crate::judge::Judge;
use crate::kind::Kind;
use crate::known::{Known, args_at, result_at};
use crate::place::Place;
use crate::plan::{Called, Mode, Part, Parts, Plan, Step};
use cost_free::Meter;
use std::alloc::{AllocError, Global};
use std::rc::Rc;

/// Paths have room for so many parts at first.
const ROOM: usize = 8;

/// Of a number, what a meter charges.
pub fn charged(mode: Mode, meter: Meter, n: u32) -> u32
    ensures { result ≡ charged (mode_of mode) meter n }
{
    match mode {
        Mode::With(paid) if paid == meter => n,
        Mode::With(_) | Mode::Own | Mode::Past => 0,
    }
}

// A price is paid by the first entry.
#[tactic(auto, using(crate::proofs::Bringing::first_against))]
fn pay<T: Kind, J: Judge<T>>(
    here: &Place<'_, '_, T>,
    n: u32,
    index: usize,
    judge: &mut J,
    path: &[u32],
    entries: &mut Vec<T>,
) -> Result<(), AllocError>
    ensures heard { OnOk result
        (J.verdict judge.new ≡ J.after (J.verdict judge.old)
        (numbered path.now index ((at T.kind entries.old.items 0, T.kind.number (n * here.now.known.now.scale)) ∷ []))) }
    ensures left { OnOk result (entries.new.items ≡ at_zero (T.kind.less (n * here.now.known.now.scale)) entries.old.items) }
{
    let price = number_alone(here.alloc, n, here.known.scale)?;
    judge.hear(here.alloc, path, index, entries, &price)?;
    lower_first(entries, n, here.known.scale);
    Ok(())
}

// The nodes are paid for, where that is charged; the index that comes next.
fn begin<T: Kind, J: Judge<T>>(
    here: &Place<'_, '_, T>,
    paid: u32,
    judge: &mut J,
    path: &[u32],
    entries: &mut Vec<T>,
) -> Result<usize, AllocError>
    ensures heard { OnOk result
        (J.verdict judge.new ≡ J.after (J.verdict judge.old) (nodes_rows T.kind here.now.known.now.scale paid path.now entries.old.items)) }
    ensures left { OnOk result (entries.new.items ≡ nodes_left T.kind here.now.known.now.scale paid entries.old.items) }
    ensures index { IfOk result (λ index. index ≡ nodes_index paid) }
{
    if paid == 0 {
        return Ok(0);
    }
    pay(here, paid, 0, judge, path, entries)?;
    Ok(1)
}

/// The conditions of a plan are heard; the hints that it leaves.
#[cycle(walk)]
pub fn walk<'h, T: Kind, J: Judge<T>>(
    here: &Place<'_, '_, T>,
    plan: &Plan,
    judge: &mut J,
    path: &mut Vec<u32>,
    q: Vec<T>,
    hints: &'h [Hint<T>],
) -> Result<&'h [Hint<T>], AllocError>
    ensures heard { OnOk result
        (J.verdict judge.new ≡ J.after (J.verdict judge.old)
        (walked_at T.kind here.now (plan_of plan.now) path.old.items q.items (hints_of hints.now)).found) }
    ensures left { IfOk result
        (λ out. hints_of out.now ≡ (walked_at T.kind here.now (plan_of plan.now) path.old.items q.items (hints_of hints.now)).left) }
    ensures path { OnOk result (path.new.items ≡ path.old.items) }
{
    match plan {
        Plan::Ends(nodes, cells, steps) => {
            walk_ends(here, *nodes, *cells, steps, judge, path, q, hints)
        }
        Plan::Pays(nodes, ticks, rest) => {
            walk_pays(here, *nodes, *ticks, rest, judge, path, q, hints)
        }
        Plan::Moves(nodes, step, rest) => {
            walk_moves(here, *nodes, step, rest, judge, path, q, hints)
        }
        Plan::Forks(nodes, step, first, other, second) => walk_forks(
            here, *nodes, step, first, other, second, judge, path, q, hints,
        ),
        Plan::Shares(nodes, size, step, rest) => {
            walk_shares(here, *nodes, *size, step, rest, judge, path, q, hints)
        }
        Plan::Calls(nodes, called) => walk_calls(here, *nodes, called, judge, path, q, hints),
        Plan::Lets(nodes, parts, firsts, size, rest) => walk_lets(
            here, *nodes, parts, firsts, *size, rest, judge, path, q, hints,
        ),
    }
}

// A form without parts.
fn walk_ends<'h, T: Kind, J: Judge<T>>(
    here: &Place<'_, '_, T>,
    nodes: u32,
    cells: u32,
    steps: &[Step],
    judge: &mut J,
    path: &mut Vec<u32>,
    q: Vec<T>,
    hints: &'h [Hint<T>],
) -> Result<&'h [Hint<T>], AllocError>
    ensures heard { OnOk result
        (J.verdict judge.new ≡ J.after (J.verdict judge.old)
        (walked_at T.kind here.now (p.Ends nodes cells (map step_of steps.now)) path.old.items q.items (hints_of hints.now)).found) }
    ensures left { IfOk result
        (λ out. hints_of out.now
        ≡ (walked_at T.kind here.now (p.Ends nodes cells (map step_of steps.now)) path.old.items q.items (hints_of hints.now)).left) }
    ensures path { OnOk result (path.new.items ≡ path.old.items) }
{
    let mut q = q;
    let index = begin(
        here,
        charged(here.mode, Meter::Work, nodes),
        judge,
        path,
        &mut q,
    )?;
    let mut right = all_moved(here.alloc, steps, here.result)?;
    raise_first(
        &mut right,
        charged(here.mode, Meter::Cells, cells),
        here.known.scale,
    );
    judge.hear(here.alloc, path, index, &q, &right)?;
    Ok(hints)
}

// Ticks are paid for.
#[cycle(walk)]
fn walk_pays<'h, T: Kind, J: Judge<T>>(
    here: &Place<'_, '_, T>,
    nodes: u32,
    ticks: u32,
    rest: &Plan,
    judge: &mut J,
    path: &mut Vec<u32>,
    q: Vec<T>,
    hints: &'h [Hint<T>],
) -> Result<&'h [Hint<T>], AllocError>
    ensures heard { OnOk result
        (J.verdict judge.new ≡ J.after (J.verdict judge.old)
        (walked_at T.kind here.now (p.Pays nodes ticks (plan_of rest.now)) path.old.items q.items (hints_of hints.now)).found) }
    ensures left { IfOk result
        (λ out. hints_of out.now
        ≡ (walked_at T.kind here.now (p.Pays nodes ticks (plan_of rest.now)) path.old.items q.items (hints_of hints.now)).left) }
    ensures path { OnOk result (path.new.items ≡ path.old.items) }
{
    let mut q = q;
    let index = begin(
        here,
        charged(here.mode, Meter::Work, nodes),
        judge,
        path,
        &mut q,
    )?;
    pay(
        here,
        charged(here.mode, Meter::Ticks, ticks),
        index,
        judge,
        path,
        &mut q,
    )?;
    let out = walk_child(here, rest, 0, judge, path, q, hints)?;
    Ok(out)
}

// The annotation is moved to another context.
#[cycle(walk)]
fn walk_moves<'h, T: Kind, J: Judge<T>>(
    here: &Place<'_, '_, T>,
    nodes: u32,
    step: &Step,
    rest: &Plan,
    judge: &mut J,
    path: &mut Vec<u32>,
    q: Vec<T>,
    hints: &'h [Hint<T>],
) -> Result<&'h [Hint<T>], AllocError>
    ensures heard { OnOk result
        (J.verdict judge.new ≡ J.after (J.verdict judge.old)
        (walked_at T.kind here.now
        (p.Moves nodes (step_of step.now) (plan_of rest.now)) path.old.items q.items (hints_of hints.now)).found) }
    ensures left { IfOk result
        (λ out. hints_of out.now
        ≡ (walked_at T.kind here.now
        (p.Moves nodes (step_of step.now) (plan_of rest.now)) path.old.items q.items (hints_of hints.now)).left) }
    ensures path { OnOk result (path.new.items ≡ path.old.items) }
{
    let mut q = q;
    let start = begin(
        here,
        charged(here.mode, Meter::Work, nodes),
        judge,
        path,
        &mut q,
    )?;
    let next = moved(here.alloc, step, &q)?;
    let out = walk_child(here, rest, 0, judge, path, next, hints)?;
    Ok(out)
}

// One branch after the other.
#[cycle(walk)]
fn walk_forks<'h, T: Kind, J: Judge<T>>(
    here: &Place<'_, '_, T>,
    nodes: u32,
    step: &Step,
    first: &Plan,
    other: &Step,
    second: &Plan,
    judge: &mut J,
    path: &mut Vec<u32>,
    q: Vec<T>,
    hints: &'h [Hint<T>],
) -> Result<&'h [Hint<T>], AllocError>
    ensures heard { OnOk result
        (J.verdict judge.new ≡ J.after (J.verdict judge.old)
        (walked_at T.kind here.now
        (p.Forks nodes (step_of step.now) (plan_of first.now) (step_of other.now)
        (plan_of second.now)) path.old.items q.items (hints_of hints.now)).found) }
    ensures left { IfOk result
        (λ out. hints_of out.now
        ≡ (walked_at T.kind here.now
        (p.Forks nodes (step_of step.now) (plan_of first.now) (step_of other.now)
        (plan_of second.now)) path.old.items q.items (hints_of hints.now)).left) }
    ensures path { OnOk result (path.new.items ≡ path.old.items) }
{
    let mut q = q;
    let start = begin(
        here,
        charged(here.mode, Meter::Work, nodes),
        judge,
        path,
        &mut q,
    )?;
    let before = moved(here.alloc, step, &q)?;
    let left = walk_child(here, first, 0, judge, path, before, hints)?;
    let behind = moved(here.alloc, other, &q)?;
    let out = walk_child(here, second, 1, judge, path, behind, left)?;
    Ok(out)
}

// A variable is shared.
#[cycle(walk)]
fn walk_shares<'h, T: Kind, J: Judge<T>>(
    here: &Place<'_, '_, T>,
    nodes: u32,
    size: usize,
    step: &Step,
    rest: &Plan,
    judge: &mut J,
    path: &mut Vec<u32>,
    q: Vec<T>,
    hints: &'h [Hint<T>],
) -> Result<&'h [Hint<T>], AllocError>
    ensures heard { OnOk result
        (J.verdict judge.new ≡ J.after (J.verdict judge.old)
        (walked_at T.kind here.now
        (p.Shares nodes size (step_of step.now) (plan_of rest.now)) path.old.items q.items (hints_of hints.now)).found) }
    ensures left { IfOk result
        (λ out. hints_of out.now
        ≡ (walked_at T.kind here.now
        (p.Shares nodes size (step_of step.now) (plan_of rest.now)) path.old.items q.items (hints_of hints.now)).left) }
    ensures path { OnOk result (path.new.items ≡ path.old.items) }
{
    let mut q = q;
    let index = begin(
        here,
        charged(here.mode, Meter::Work, nodes),
        judge,
        path,
        &mut q,
    )?;
    let told = copies_of(hints);
    let right = moved(here.alloc, step, told)?;
    judge.hear(here.alloc, path, index, &q, &right)?;
    let next = copies(here.alloc, told)?;
    let out = walk_child(here, rest, 0, judge, path, next, later(hints))?;
    Ok(out)
}

// A part of a form, whose number stands behind the path.
#[cycle(walk)]
fn walk_child<'h, T: Kind, J: Judge<T>>(
    here: &Place<'_, '_, T>,
    plan: &Plan,
    number: u32,
    judge: &mut J,
    path: &mut Vec<u32>,
    q: Vec<T>,
    hints: &'h [Hint<T>],
) -> Result<&'h [Hint<T>], AllocError>
    ensures heard { OnOk result
        (J.verdict judge.new ≡ J.after (J.verdict judge.old)
        (walked_at T.kind here.now (plan_of plan.now) (path.old.items ++ number ∷ []) q.items (hints_of hints.now)).found) }
    ensures left { IfOk result
        (λ out. hints_of out.now
        ≡ (walked_at T.kind here.now (plan_of plan.now) (path.old.items ++ number ∷ []) q.items (hints_of hints.now)).left) }
    ensures path { OnOk result (path.new.items ≡ path.old.items) }
{
    path.push(number)?;
    let rest = walk(here, plan, judge, path, q, hints)?;
    path.pop();
    Ok(rest)
}

// Where no signature pays, a condition is heard that nothing meets; the index that comes next.
fn hear_missing<T: Kind, J: Judge<T>>(
    here: &Place<'_, '_, T>,
    called: &Called,
    index: usize,
    judge: &mut J,
    path: &[u32],
) -> Result<usize, AllocError>
    requires { index < 2 }
    ensures heard { OnOk result (J.verdict judge.new
        ≡ J.after (J.verdict judge.old)
        (numbered path.now index
        (missing T.kind (known_of here.now.known.now) (mode_of here.now.mode) (called_of called.now) called.now.own))) }
    ensures index { IfOk result (λ next. next
        ≡ index + length (missing T.kind (known_of here.now.known.now) (mode_of here.now.mode) (called_of called.now) called.now.own)) }
{
    if !is_unpaid(here.known, called, here.mode) {
        return Ok(index);
    }
    let one = number_alone(here.alloc, 1, 1)?;
    judge.hear(here.alloc, path, index, &[], &one)?;
    Ok(index + 1)
}

// A call.
fn walk_calls<'h, T: Kind, J: Judge<T>>(
    here: &Place<'_, '_, T>,
    nodes: u32,
    called: &Called,
    judge: &mut J,
    path: &mut Vec<u32>,
    q: Vec<T>,
    hints: &'h [Hint<T>],
) -> Result<&'h [Hint<T>], AllocError>
    ensures heard { OnOk result
        (J.verdict judge.new ≡ J.after (J.verdict judge.old)
        (walked_at T.kind here.now (p.Calls nodes (called_of called.now)) path.old.items q.items (hints_of hints.now)).found) }
    ensures left { IfOk result
        (λ out. hints_of out.now
        ≡ (walked_at T.kind here.now (p.Calls nodes (called_of called.now)) path.old.items q.items (hints_of hints.now)).left) }
    ensures path { OnOk result (path.new.items ≡ path.old.items) }
{
    let mut q = q;
    let start = begin(
        here,
        charged(here.mode, Meter::Work, nodes),
        judge,
        path,
        &mut q,
    )?;
    let index = hear_missing(here, called, start, judge, path)?;
    let sides = sums(
        here.alloc,
        here.known,
        called,
        here.mode,
        multiples_of(hints),
    )?;
    let behind = index + sides.args.len();
    judge.hear(here.alloc, path, index, &q, &sides.args)?;
    judge.hear(here.alloc, path, behind, &sides.result, here.result)?;
    Ok(later(hints))
}

// The bound form of a `let` for each tuple, and then the rest.
#[cycle(walk)]
fn walk_lets<'h, T: Kind, J: Judge<T>>(
    here: &Place<'_, '_, T>,
    nodes: u32,
    parts: &Parts,
    firsts: &[Rc<Plan>],
    size: usize,
    rest: &Plan,
    judge: &mut J,
    path: &mut Vec<u32>,
    q: Vec<T>,
    hints: &'h [Hint<T>],
) -> Result<&'h [Hint<T>], AllocError>
    ensures heard { OnOk result
        (J.verdict judge.new ≡ J.after (J.verdict judge.old)
        (walked_at T.kind here.now
        (p.Lets nodes parts.now (plans_of firsts.now) size (plan_of rest.now)) path.old.items q.items (hints_of hints.now)).found) }
    ensures left { IfOk result
        (λ out. hints_of out.now
        ≡ (walked_at T.kind here.now
        (p.Lets nodes parts.now (plans_of firsts.now) size (plan_of rest.now)) path.old.items q.items (hints_of hints.now)).left) }
    ensures path { OnOk result (path.new.items ≡ path.old.items) }
{
    let mut q = q;
    let start = begin(
        here,
        charged(here.mode, Meter::Work, nodes),
        judge,
        path,
        &mut q,
    )?;
    let told = results_of(hints);
    let tuples = parts.list();
    let left = walk_each(here, firsts, tuples, told, judge, path, &q, later(hints))?;
    let next = joined(here.alloc, size, tuples, told)?;
    let out = walk_child(here, rest, tuples.len() as u32, judge, path, next, left)?;
    Ok(out)
}

// The bound form: in the present mode for the first tuple, and in mode Past for all others.
#[cycle(walk)]
fn walk_each<'h, T: Kind, J: Judge<T>>(
    here: &Place<'_, '_, T>,
    firsts: &[Rc<Plan>],
    parts: &[Part],
    told: &[Vec<T>],
    judge: &mut J,
    path: &mut Vec<u32>,
    q: &[T],
    hints: &'h [Hint<T>],
) -> Result<&'h [Hint<T>], AllocError>
    requires few { length parts.now < 2 ^ 32 }
    ensures heard { OnOk result (J.verdict judge.new ≡ J.after (J.verdict judge.old)
        (each_at T.kind here.now (plans_of firsts.now) 0 (map part_of parts.now)
        (map (λ v. v.items) told.now) path.old.items q.now (hints_of hints.now)).found) }
    ensures left { IfOk result (λ out. hints_of out.now
        ≡ (each_at T.kind here.now (plans_of firsts.now) 0 (map part_of parts.now)
        (map (λ v. v.items) told.now) path.old.items q.now (hints_of hints.now)).left) }
    ensures path { OnOk result (path.new.items ≡ path.old.items) }
{
    let mut mode = here.mode;
    let mut rest = hints;
    for number in 0..parts.len() {
        let bound = Place {
            alloc: here.alloc,
            known: here.known,
            mode,
            result: entries_at(told, number),
        };
        rest = walk_part(
            &bound,
            firsts,
            &parts[number],
            number as u32,
            judge,
            path,
            q,
            rest,
        )?;
        mode = Mode::Past;
    }
    Ok(rest)
}

// The bound form for one tuple, where there is a plan for its degree.
#[cycle(walk)]
fn walk_part<'h, T: Kind, J: Judge<T>>(
    here: &Place<'_, '_, T>,
    firsts: &[Rc<Plan>],
    part: &Part,
    number: u32,
    judge: &mut J,
    path: &mut Vec<u32>,
    q: &[T],
    hints: &'h [Hint<T>],
) -> Result<&'h [Hint<T>], AllocError>
    ensures heard { OnOk result (J.verdict judge.new ≡ J.after (J.verdict judge.old)
        (part_at T.kind here.now (plans_of firsts.now) (part_of part.now) number path.old.items q.now (hints_of hints.now)).found) }
    ensures left { IfOk result (λ out. hints_of out.now
        ≡ (part_at T.kind here.now (plans_of firsts.now) (part_of part.now) number path.old.items q.now (hints_of hints.now)).left) }
    ensures path { OnOk result (path.new.items ≡ path.old.items) }
{
    if part.degree >= firsts.len() {
        return Ok(hints);
    }
    let plan = &firsts[part.degree];
    let next = moved(here.alloc, &part.there, q)?;
    let out = walk_child(here, plan, number, judge, path, next, hints)?;
    Ok(out)
}

/// Hears the conditions of a function's body, with its signature at this place of the group, and gives
/// the hints that they leave.
pub fn walk_body<'h, T: Kind, J: Judge<T>>(
    alloc: Global,
    known: &Known<'_, T>,
    plan: &Plan,
    mode: Mode,
    place: u32,
    hints: &'h [Hint<T>],
    judge: &mut J,
) -> Result<&'h [Hint<T>], AllocError>
    ensures heard { OnOk result (J.verdict judge.new
        ≡ J.after (J.verdict judge.old)
        (body_walked T.kind (known_of known.now) (plan_of plan.now) (mode_of mode) place (hints_of hints.now)).found) }
    ensures left { IfOk result (λ out. hints_of out.now
        ≡ (body_walked T.kind (known_of known.now) (plan_of plan.now) (mode_of mode) place (hints_of hints.now)).left) }
{
    let mut path = Vec::with_capacity(alloc, ROOM)?;
    path.push(place)?;
    let here = Place {
        alloc,
        known: &*known,
        mode,
        result: result_at(known.group, place as usize),
    };
    let args = copies(alloc, args_at(known.group, place as usize))?;
    let out = walk(&here, plan, judge, &mut path, args, hints)?;
    Ok(out)
}
