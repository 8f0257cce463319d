// The check of the vector of a refuted block.
ghost use Rattle.std.specs.Prelude.{◌≡◌, ◌≤◌, ◌↔◌, ◌≤ℤ◌, pos, List, map, length, None, unsigned_abs, IsTrue, IfOk};
ghost use Rattle.std.specs.List.{range_with_len};
ghost use Rattle.cost_free.specs.Read.{kind_of, task_of};
ghost use Rattle.annot_types.specs.Certificate as c;
ghost use Rattle.annot_types.specs.Certificate.{Rise, number_at};
ghost use Rattle.annot_types.specs.Holds.{budget_of};
ghost use Rattle.annot_types.specs.System.{system, AreRows};
ghost use Rattle.rules_spec.specs.Systems.{IsTask};
ghost use Rattle.rules_walk.specs.Remembers.{Remembers};
ghost use Rattle.rules_plan.specs.Read.{program_in};
ghost use Rattle.infer_spec.specs.Generator.{limit_of};
ghost use Rattle.infer_spec.specs.Verifying.{NoneLeaves, vector_of};
ghost use Rattle.infer_systems_laws.specs.Analysed.{generator_of};
ghost use Rattle.infer_systems_laws.specs.Laws.{LimitsAreTold};
ghost use Rattle.bound_infer.specs.Cleared.{fault_of, gen_fault, Tells};

use constraint_gen::{GenFault, What, rows};
use cost_free::Task;
use farkas_check::{Verdict, refutes_quickly};
use linear_rows::System;
use rules_walk::Earlier;
use share_normal::NormProgram;
use std::alloc::{AllocError, Global};

/// Why a vector does not refute its task, in the order in which it is tried.
#[derive(Clone, Copy, Debug)]
pub enum VectorFault {
    /// Of the task there are too many of these.
    TooLarge { what: What },
    /// A number of this row of its system leaves 128 bits.
    Row { row: u32 },
    NotRefuted,
    /// A total of the check leaves 128 bits at this column.
    Refute { column: u32 },
    NoMemory,
}

// All entries are at numbers of rows.
fn are_rows(farkas: &[(u32, i128)], count: usize) -> bool
    ensures { IsTrue result ↔ AreRows count farkas.now }
{
    for &(row, _) in farkas {
        if (row as usize) >= count {
            return false;
        }
    }
    true
}

// The number of the first entry at a row, 0 where there is none.
fn number_at(farkas: &[(u32, i128)], row: usize) -> i128
    ensures { result ≡ number_at row farkas.now }
{
    for &(place, number) in farkas {
        if (place as usize) == row {
            return number;
        }
    }
    0
}

// A number for each row.
fn vector(alloc: Global, farkas: &[(u32, i128)], count: usize) -> Result<Vec<i128>, AllocError>
    ensures { IfOk result (λ made. made.items ≡ map (λ row. number_at row farkas.now) (range_with_len 0 count)) }
{
    let mut made = Vec::with_capacity(alloc, count)?;
    for row in 0..count {
        made.push(number_at(farkas, row))?;
    }
    Ok(made)
}

// The check of a number for each row, those of these entries. It never wants memory.
fn check_numbers(
    alloc: Global,
    system: &System,
    farkas: &[(u32, i128)],
    numbers: &[i128],
) -> Result<(), VectorFault>
    requires rise { Rise farkas.now }
    requires rows { AreRows (length system.now.rows) farkas.now }
    requires numbers { numbers.now ≡ vector_of system.now farkas.now }
    ensures told { NoneLeaves system.now → Tells result None system.now farkas.now }
    ensures never { result ≡ Err VectorFault.NoMemory → ⊥ }
{
    match refutes_quickly(alloc, system, numbers) {
        Verdict::Yes => Ok(()),
        Verdict::No { .. } => Err(VectorFault::NotRefuted),
        Verdict::Leaves { column } => Err(VectorFault::Refute { column }),
    }
}

// The check of a vector of so many numbers as there are rows.
fn check_vector(alloc: Global, system: &System, farkas: &[(u32, i128)]) -> Result<(), VectorFault>
    requires rise { Rise farkas.now }
    requires rows { AreRows (length system.now.rows) farkas.now }
    ensures { NoneLeaves system.now → Tells result None system.now farkas.now }
{
    match vector(alloc, farkas, system.rows().len()) {
        Ok(numbers) => check_numbers(alloc, system, farkas, &numbers),
        Err(_) => Err(VectorFault::NoMemory),
    }
}

// The check of entries.
fn check_entries(alloc: Global, system: &System, farkas: &[(u32, i128)]) -> Result<(), VectorFault>
    requires rise { Rise farkas.now }
    ensures { NoneLeaves system.now → Tells result None system.now farkas.now }
{
    if are_rows(farkas, system.rows().len()) {
        check_vector(alloc, system, farkas)
    } else {
        Err(VectorFault::NotRefuted)
    }
}

// Why there is no system.
fn no_system(fault: GenFault) -> VectorFault
    ensures { fault_of result ≡ gen_fault fault }
{
    match fault {
        GenFault::TooLarge(what) => VectorFault::TooLarge { what },
        GenFault::Leaves { row } => VectorFault::Row { row },
        GenFault::NoMemory => VectorFault::NoMemory,
    }
}

/// The check of entries, as a vector for the rows of a task at degree `d` over the blocks before it, with
/// prices times `scale`.
pub fn check_refuted(
    alloc: Global,
    program: &NormProgram<'_>,
    d: u8,
    earlier: &Earlier,
    task: &Task,
    scale: i128,
    farkas: &[(u32, i128)],
) -> Result<(), VectorFault>
    requires degree { d ≤ 4 }
    requires budget { budget_of d (kind_of task.now.kind) ≤ 4 }
    requires natural { pos 0 ≤ℤ scale }
    requires rise { Rise farkas.now }
    requires limits { LimitsAreTold }
    ensures { (blocks : List c.Block) → Remembers (program_in program.now) d blocks earlier.now →
        IsTask (program_in program.now) d blocks (task_of task.now) (unsigned_abs scale) →
        Tells result (limit_of (generator_of (program_in program.now) d) (task_of task.now)
        (system (program_in program.now) d blocks (task_of task.now) (unsigned_abs scale)))
        (system (program_in program.now) d blocks (task_of task.now) (unsigned_abs scale)) farkas.now }
{
    match rows(alloc, program, d, earlier, task, scale) {
        Err(fault) => Err(no_system(fault)),
        Ok(system) => check_entries(alloc, &system, farkas),
    }
}
