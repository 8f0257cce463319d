// The conditions of a task are heard.
ghost use Rattle.std.specs.Prelude.{◌≡◌, ◌≤◌, ◌<◌, ◌+◌, ◌^◌, ℕ, List, [], map, length, IfOk, OnOk};
ghost use Rattle.cost_free.specs.Read.{task_of, kind_of};
ghost use Rattle.annot_types.specs.Program as p;
ghost use Rattle.annot_types.specs.Holds as h;
ghost use Rattle.rules_spec.specs.Jobs.{target_place, target_positions};
ghost use Rattle.rules_spec.specs.Asked.{asked};
ghost use Rattle.rules_spec.specs.Tasks as t;
ghost use Rattle.rules_spec.specs.Tasks.{unknowns, given_conditions};
ghost use Rattle.rules_walk.specs.Asks.{asks_of};
ghost use Rattle.rules_walk.specs.Read.{hints_of, known_of, sides_of, sides_at};
ghost use Rattle.rules_walk.specs.Read as w;
ghost use Rattle.rules_plan.specs.Read.{program_in, body_of};
ghost use Rattle.constraint_gen.specs.Sums.{sums, unknown};
ghost use Rattle.constraint_gen.specs.Heard.{Heard, hear_all};
ghost use Rattle.constraint_gen.specs.Walked.{job_in, reached, bodies_walked};

use crate::collector::Collector;
use crate::form::Form;
use crate::give::{all_answers, sides};
use crate::task::{budget_of, members, mode_of, target_place, target_positions};
use cost_free::Task;
use linear_rows::Row;
use rules_plan::Body;
use rules_walk::{Ask, Earlier, Hint, Kind, Known, Mode, Sides};
use share_normal::NormProgram;
use std::alloc::{AllocError, Global};

// At each of these positions the result is to have at least 1.
fn hear_target(
    alloc: Global,
    result_of: &[Form],
    positions: &[usize],
    collector: &mut Collector,
) -> Result<(), AllocError>
    ensures { OnOk result ((function : ℕ) → collector.new ≡ hear_all collector.old (reached function result_of.now positions.now)) }
{
    let none = Form::none(alloc);
    let one = Form::number(alloc, 1, 1);
    for &position in positions {
        collector.take(alloc, result_of.get(position).unwrap_or(&none), &one)?;
    }
    Ok(())
}

// The walks of all bodies.
fn hear_bodies(
    alloc: Global,
    known: &Known<'_, Form>,
    mode: Mode,
    bodies: &[Body<'_>],
    hints: &[Vec<Hint<Form>>],
    collector: &mut Collector,
) -> Result<(), AllocError>
    requires hints { length hints.now ≡ length bodies.now }
    requires few { length bodies.now ≤ 2000 }
    ensures { OnOk result (collector.new
        ≡ hear_all collector.old
        (bodies_walked (known_of known.now) (w.mode_of mode) 0 (map body_of bodies.now) (map (λ h. hints_of h.items) hints.now))) }
{
    for place in 0..bodies.len() {
        bodies[place].walk(alloc, known, mode, place as u32, &hints[place], collector)?;
    }
    Ok(())
}

// The result of the signature at a place; none where there is no such place.
fn result_at(group: &[Sides<Form>], place: usize) -> &[Form]
    ensures { result.now ≡ (sides_at (map sides_of group.now) place).result }
{
    match group.get(place) {
        Some(sides) => &sides.result,
        None => &[],
    }
}

// The target and the bodies, where these are the signatures and the hints.
fn hear_all(
    alloc: Global,
    program: &NormProgram<'_>,
    d: u8,
    task: &Task,
    known: &Known<'_, Form>,
    bodies: &[Body<'_>],
    hints: &[Vec<Hint<Form>>],
    collector: &mut Collector,
) -> Result<(), AllocError>
    requires hints { length hints.now ≡ length bodies.now }
    requires few { length bodies.now ≤ 2000 }
    ensures { OnOk result (collector.new ≡ hear_all (hear_all collector.old
        (reached (target_place (p.members (program_in program.now) task.now.group) (kind_of task.now.kind))
        (sides_at (known_of known.now).group
        (target_place (p.members (program_in program.now) task.now.group) (kind_of task.now.kind))).result
        (target_positions (program_in program.now) d (kind_of task.now.kind))))
        (bodies_walked (known_of known.now) (h.mode_of (kind_of task.now.kind)) 0
        (map body_of bodies.now) (map (λ h. hints_of h.items) hints.now))) }
{
    let place = target_place(members(program, task.group), task.kind);
    let positions = target_positions(alloc, program, d, task.kind)?;
    hear_target(alloc, result_at(known.group, place), &positions, collector)?;
    hear_bodies(alloc, known, mode_of(task.kind), bodies, hints, collector)?;
    Ok(())
}

/// The rows of a task, but for those that say nothing, and no more than 2001 of them; none stands for a
/// row that leaves 128 bits.
pub fn heard(
    alloc: Global,
    program: &NormProgram<'_>,
    d: u8,
    earlier: &Earlier,
    task: &Task,
    scale: u128,
    bodies: &[Body<'_>],
    asks: &[Vec<Ask>],
    count: u32,
) -> Result<Vec<Option<Row>>, AllocError>
    requires few { length bodies.now ≤ 2000 }
    requires asked { map (λ a. asks_of a.items) asks.now ≡ map (λ (b : t.Body). asked b.plan) (map body_of bodies.now) }
    requires room { unknowns (job_in (program_in program.now) d earlier.now (map body_of bodies.now) (task_of task.now) scale) ≤ 2000 }
    ensures { IfOk result (λ rows. record { unknowns = count; rows = rows.items } ≡ hear_all (record { unknowns = count; rows = [] })
        (given_conditions sums unknown (job_in (program_in program.now) d earlier.now (map body_of bodies.now) (task_of task.now) scale))) }
{
    let mut next = 0;
    let group = sides(alloc, &mut next, bodies)?;
    let hints = all_answers(alloc, &mut next, asks)?;
    let known = earlier.known(scale, budget_of(d, task.kind) as usize, &group);
    let mut collector = Collector::new(alloc, count)?;
    hear_all(
        alloc,
        program,
        d,
        task,
        &known,
        bodies,
        &hints,
        &mut collector,
    )?;
    Ok(collector.into_rows())
}
