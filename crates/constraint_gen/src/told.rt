// What a solution stands for.
ghost use Rattle.std.specs.Prelude.{◌≡◌, ◌≤◌, ◌<◌, ◌+◌, ◌++◌, ◌≤ℤ◌, ℕ, pos, unsigned_abs, List, map, length, IfOk, OnOk};
ghost use Rattle.raml_num.specs.Sums.{NoneNegative};
ghost use Rattle.cost_free.specs.Task as k;
ghost use Rattle.cost_free.specs.Read.{task_of, kind_of};
ghost use Rattle.annot_types.specs.Program.{Program};
ghost use Rattle.annot_types.specs.Certificate as c;
ghost use Rattle.annot_types.specs.Holds as h;
ghost use Rattle.annot_types.specs.Read.{sig_of, hint_of, hints_of};
ghost use Rattle.rules_spec.specs.Asked.{given, given_each, given_blocks, answer, answers, sum_of, count, counts};
ghost use Rattle.rules_spec.specs.Tasks.{sides_count, sides_given};
ghost use Rattle.rules_spec.specs.Systems.{IsTask};
ghost use Rattle.rules_spec.specs.Told as t;
ghost use Rattle.rules_spec.specs.Told.{bodies_of, sigs_told, hints_told, entries, named};
ghost use Rattle.rules_walk.specs.Remembers.{Remembers};
ghost use Rattle.rules_walk.specs.Asks.{ask_of, asks_of};
ghost use Rattle.rules_plan.specs.Read.{program_in, body_of};
ghost use Rattle.rules_systems_laws.specs.Laws.{IsNumbered};
ghost use Rattle.constraint_gen.specs.Cause.{IsWithin};
ghost use Rattle.constraint_gen.specs.Given.{all_counts, all_answers, unknowns_of};
ghost use Rattle.constraint_gen.specs.Numbers.{AreNumbers, numbers, entry};
ghost use Rattle.constraint_gen.specs.Solutions.{HasOneEach, HoldWhereSolved};

use crate::counts::all_asked;
use crate::fault::GenFault;
use crate::system::plans;
use annot_types::{Annot, Hint, Sig};
use cost_free::Task;
use rules_plan::Body;
use rules_systems_laws::laws::solutions_hold;
use rules_walk::{Ask, Earlier};
use share_normal::NormProgram;
use std::alloc::{AllocError, Global};

// The number of an unknown.
fn number_at(solution: &[i128], unknown: u32) -> i128
    requires numbers { AreNumbers solution.now }
    requires there { unknown < length solution.now }
    ensures number { unsigned_abs result ≡ numbers solution.now unknown }
    ensures natural { pos 0 ≤ℤ result }
{
    solution[unknown as usize]
}

// An entry at a place, unless its number is 0.
fn append(found: &mut Vec<(u32, i128)>, place: u32, number: i128) -> Result<(), AllocError>
    requires natural { pos 0 ≤ℤ number }
    ensures { OnOk result (found.new.items ≡ found.old.items ++ entry place (unsigned_abs number)) }
{
    if number != 0 {
        found.push((place, number))?;
    }
    Ok(())
}

// So many numbers, from the next unknown on, by position.
fn found(
    alloc: Global,
    solution: &[i128],
    next: &mut u32,
    size: usize,
) -> Result<Vec<(u32, i128)>, AllocError>
    requires numbers { AreNumbers solution.now }
    requires room { next.old + size ≤ length solution.now }
    ensures told { IfOk result (λ made. made.items ≡ entries (given (numbers solution.now) next.old size)) }
    ensures next { OnOk result (next.new ≡ next.old + size) }
{
    let mut made = Vec::new(alloc);
    for place in 0..size {
        append(&mut made, place as u32, number_at(solution, *next))?;
        *next += 1;
    }
    Ok(made)
}

// The same as an annotation.
fn annot(alloc: Global, solution: &[i128], next: &mut u32, size: usize) -> Result<Annot, AllocError>
    requires numbers { AreNumbers solution.now }
    requires room { next.old + size ≤ length solution.now }
    ensures told { IfOk result (λ made. made ≡ entries (given (numbers solution.now) next.old size)) }
    ensures next { OnOk result (next.new ≡ next.old + size) }
{
    match Annot::new(found(alloc, solution, next, size)?) {
        Some(made) => Ok(made),
        None => unreachable!(),
    }
}

// Annotations of these sizes.
fn annots(
    alloc: Global,
    solution: &[i128],
    next: &mut u32,
    sizes: &[usize],
) -> Result<Vec<Annot>, AllocError>
    requires numbers { AreNumbers solution.now }
    requires room { next.old + sum_of sizes.now ≤ length solution.now }
    ensures told { IfOk result (λ made. made.items ≡ map entries (given_each (numbers solution.now) next.old sizes.now)) }
    ensures next { OnOk result (next.new ≡ next.old + sum_of sizes.now) }
{
    let mut made = Vec::with_capacity(alloc, sizes.len())?;
    for &size in sizes {
        made.push(annot(alloc, solution, next, size)?)?;
    }
    Ok(made)
}

// The blocks that are taken.
fn multiples(
    alloc: Global,
    solution: &[i128],
    next: &mut u32,
    blocks: &[u32],
) -> Result<Vec<(u32, i128)>, AllocError>
    requires numbers { AreNumbers solution.now }
    requires room { next.old + length blocks.now ≤ length solution.now }
    ensures told { IfOk result (λ made. made.items ≡ named (given_blocks (numbers solution.now) next.old blocks.now)) }
    ensures next { OnOk result (next.new ≡ next.old + length blocks.now) }
{
    let mut made = Vec::new(alloc);
    for &block in blocks {
        append(&mut made, block, number_at(solution, *next))?;
        *next += 1;
    }
    Ok(made)
}

// A hint that is asked for.
fn hint(alloc: Global, solution: &[i128], next: &mut u32, ask: &Ask) -> Result<Hint, AllocError>
    requires numbers { AreNumbers solution.now }
    requires room { next.old + count (ask_of ask.now) ≤ length solution.now }
    ensures told { IfOk result (λ made. hint_of made ≡ t.hint (answer (numbers solution.now) next.old (ask_of ask.now))) }
    ensures next { OnOk result (next.new ≡ next.old + count (ask_of ask.now)) }
{
    match ask {
        Ask::Results(sizes) => Ok(Hint::Let(annots(alloc, solution, next, sizes.as_slice())?)),
        Ask::Copies(size) => Ok(Hint::Share(annot(alloc, solution, next, *size)?)),
        Ask::Multiples(blocks) => Ok(Hint::Call(multiples(
            alloc,
            solution,
            next,
            blocks.as_slice(),
        )?)),
    }
}

// All hints of a body.
fn hints(
    alloc: Global,
    solution: &[i128],
    next: &mut u32,
    asks: &[Ask],
) -> Result<Vec<Hint>, AllocError>
    requires numbers { AreNumbers solution.now }
    requires room { next.old + counts (asks_of asks.now) ≤ length solution.now }
    ensures told { IfOk result (λ made. hints_of made ≡ map t.hint (answers (numbers solution.now) next.old (asks_of asks.now))) }
    ensures next { OnOk result (next.new ≡ next.old + counts (asks_of asks.now)) }
{
    let mut made = Vec::with_capacity(alloc, asks.len())?;
    for ask in asks {
        made.push(hint(alloc, solution, next, ask)?)?;
    }
    Ok(made)
}

// Those of all bodies.
fn all_hints(
    alloc: Global,
    solution: &[i128],
    next: &mut u32,
    asks: &[Vec<Ask>],
) -> Result<Vec<Vec<Hint>>, AllocError>
    requires numbers { AreNumbers solution.now }
    requires room { next.old + all_counts (map (λ a. asks_of a.items) asks.now) ≤ length solution.now }
    ensures told { IfOk result
        (λ made. map hints_of made.items
        ≡ map (map t.hint) (all_answers (numbers solution.now) next.old (map (λ a. asks_of a.items) asks.now))) }
{
    let mut made = Vec::with_capacity(alloc, asks.len())?;
    for asked in asks {
        made.push(hints(alloc, solution, next, asked)?)?;
    }
    Ok(made)
}

// The signature of a body.
fn sig(alloc: Global, solution: &[i128], next: &mut u32, body: &Body<'_>) -> Result<Sig, AllocError>
    requires numbers { AreNumbers solution.now }
    requires room { next.old + (body.now.args + body.now.result) ≤ length solution.now }
    ensures told { IfOk result
        (λ made. sig_of made ≡ t.sig
        (record {
          args = given (numbers solution.now) next.old body.now.args;
          result = given
              (numbers solution.now) (next.old + body.now.args) body.now.result;
        })) }
    ensures next { OnOk result (next.new ≡ next.old + (body.now.args + body.now.result)) }
{
    let args = annot(alloc, solution, next, body.args)?;
    let result = annot(alloc, solution, next, body.result)?;
    Ok(Sig { args, result })
}

// Those of all bodies.
fn sigs(
    alloc: Global,
    solution: &[i128],
    next: &mut u32,
    bodies: &[Body<'_>],
) -> Result<Vec<Sig>, AllocError>
    requires numbers { AreNumbers solution.now }
    requires room { next.old + sides_count (map body_of bodies.now) ≤ length solution.now }
    ensures told { IfOk result
        (λ made. map sig_of made.items ≡ map t.sig (sides_given (numbers solution.now) next.old (map body_of bodies.now))) }
    ensures next { OnOk result (next.new ≡ next.old + sides_count (map body_of bodies.now)) }
{
    let mut made = Vec::with_capacity(alloc, bodies.len())?;
    for body in bodies {
        made.push(sig(alloc, solution, next, body)?)?;
    }
    Ok(made)
}

/// The signatures and hints that numbers stand for, one for each unknown in their order, by the plans of a
/// task's group. Where the numbers solve the task's system, these hold.
pub fn told_by(
    alloc: Global,
    plans: &[Body<'_>],
    solution: &[i128],
) -> Result<(Vec<Sig>, Vec<Vec<Hint>>), AllocError>
    requires one_each { length solution.now ≡ unknowns_of (map body_of plans.now) }
    requires few { length solution.now ≤ 2000 }
    requires natural { NoneNegative solution.now }
    ensures sigs { IfOk result (λ told. map sig_of told.0.items ≡ sigs_told (map body_of plans.now) (map unsigned_abs solution.now)) }
    ensures hints { IfOk result (λ told. map hints_of told.1.items ≡ hints_told (map body_of plans.now) (map unsigned_abs solution.now)) }
    ensures holds { IfOk result (λ told. (P : Program) (d : ℕ) (blocks : List c.Block) (task : k.Task) (scale : ℕ) →
        map body_of plans.now ≡ bodies_of P d blocks task → IsTask P d blocks task scale → IsNumbered P d task.kind →
        HoldWhereSolved P d blocks task scale solution.now (map sig_of told.0.items) (map hints_of told.1.items)) }
{
    solutions_hold();
    let asks = all_asked(alloc, plans)?;
    let mut next = 0;
    let signatures = sigs(alloc, solution, &mut next, plans)?;
    let all = all_hints(alloc, solution, &mut next, &asks)?;
    Ok((signatures, all))
}

/// The signatures and hints of a task's group that numbers stand for, one for each unknown in their order. Where
/// the numbers solve the task's system, these hold. The contexts and types of its walks have at most 2000 indices.
pub fn hints_of(
    alloc: Global,
    program: &NormProgram<'_>,
    d: u8,
    earlier: &Earlier,
    task: &Task,
    solution: &[i128],
) -> Result<(Vec<Sig>, Vec<Vec<Hint>>), AllocError>
    requires budget { h.budget_of d (kind_of task.now.kind) ≤ 4 }
    requires indices { IsWithin (program_in program.now) d (task_of task.now) }
    requires one_each { HasOneEach (program_in program.now) d earlier.now (task_of task.now) solution.now }
    requires few { length solution.now ≤ 2000 }
    requires natural { NoneNegative solution.now }
    ensures sigs { IfOk result (λ told. (blocks : List c.Block) → Remembers (program_in program.now) d blocks earlier.now →
        map sig_of told.0.items ≡ sigs_told
        (bodies_of (program_in program.now) d blocks (task_of task.now)) (map unsigned_abs solution.now)) }
    ensures hints { IfOk result (λ told. (blocks : List c.Block) → Remembers (program_in program.now) d blocks earlier.now →
        map hints_of told.1.items
        ≡ hints_told (bodies_of (program_in program.now) d blocks (task_of task.now)) (map unsigned_abs solution.now)) }
    ensures holds { IfOk result (λ told. (blocks : List c.Block) (scale : ℕ) → Remembers (program_in program.now) d blocks earlier.now →
        IsTask (program_in program.now) d blocks (task_of task.now) scale → IsNumbered (program_in program.now) d (kind_of task.now.kind) →
        HoldWhereSolved (program_in program.now) d blocks (task_of task.now) scale solution.now
        (map sig_of told.0.items) (map hints_of told.1.items)) }
{
    match plans(alloc, program, d, None, task) {
        Ok(plans) => {
            let bodies = plans.over(alloc, earlier)?;
            told_by(alloc, &bodies, solution)
        }
        Err(GenFault::NoMemory) => Err(AllocError),
        Err(GenFault::TooLarge(_) | GenFault::Leaves { .. }) => unreachable!(),
    }
}
