//! The loop of the solver.

ghost use Rattle.std.specs.Prelude.{◌≡◌, ◌<◌, ◌^◌, ◌↔◌, ℕ, true, false, length, IfOk, OnOk};
ghost use Rattle.std.specs.Fn.{FnReturnsAt};
ghost use Rattle.linear_rows.specs.Systems.{IsSystem};
ghost use Rattle.simplex_spec.specs.Tableaux.{right};
ghost use Rattle.simplex_spec.specs.Courses.{AnswersOnce, RisesBy};
ghost use Rattle.simplex.specs.Choosing.{IsChooser};
ghost use Rattle.simplex.specs.Solving.{rule_of, Reached, IsOpening, IsReady, AreFound, IsMade, IsNotMade, UpTo, Below, IsStep, IsAnswer};
ghost use Rattle.simplex.specs.Solving.{SaysNone, Agree, IsWithin, SaysCut, CutsBy};

use crate::answer::{Answer, Within};
use crate::chooser::Chooser;
use crate::covering::{covering, follow, touching};
use crate::exiting::{bounding, exiting};
use crate::fault::Fault;
use crate::pivot::{Place, pivot};
use crate::reading::{first_of, write};
use crate::table::{Table, dual, opening, ray, solution};
use frac128::Frac;
use linear_rows::System;
use simplex_rows::RowScratch;
use std::alloc::{AllocError, Global};

/// What steps hand on beside the table: room in which new rows are made, for each column before the right
/// sides marks at the blocks of rows that may have a number there and its gain in the place of the column, and
/// of the last step the columns of its lead, the rows with a number in its column and those with a positive one.
#[derive(Drop)]
pub(crate) struct Scratch {
    rows: RowScratch,
    marks: Vec<bool>,
    gains: Vec<Frac>,
    columns: Vec<u32>,
    touching: Vec<usize>,
    bounding: Vec<usize>,
}

/// What comes of a step.
#[derive(Clone, Copy)]
pub(crate) enum Step {
    /// A pivot was made.
    Pivot,
    /// No gain is left.
    Best,
    /// No row bounds this column, which has gain.
    Rises { column: u32 },
    /// As many pivots are made as the limit, and some row bounds the rule's column.
    Cut,
    /// A number in this row and column leaves the range of fractions.
    Leaves { row: u32, column: u32 },
}

/// The column that the rule answers for these gains.
fn entering<F: Fn(&[Frac]) -> Option<usize>>(chooser: &Chooser<F>, gains: &[Frac]) -> Option<u32>
    requires callable { F.IsAlwaysCallable chooser.now }
    requires chooses { IsChooser F.Fn chooser.now }
    requires columns { length gains.now < 2 ^ 32 }
    ensures { FnReturnsAt F.Fn chooser.now gains.now result }
{
    match chooser.choose(gains) {
        Some(column) => Some(column as u32),
        None => None,
    }
}

/// The step that a fault comes to.
fn stopped(fault: Fault) -> Result<Step, AllocError>
    requires { (i c : ℕ) → fault ≡ Fault.Leaves i c → i < 2 ^ 32 }
    ensures { IfOk result (λ step. (i : ℕ) × (c : ℕ) × (fault ≡ Fault.Leaves i c) × (step ≡ Step.Leaves i c)) }
{
    match fault {
        Fault::Leaves { row, column } => Ok(Step::Leaves {
            row: row as u32,
            column,
        }),
        Fault::NoMemory => Err(AllocError),
    }
}

/// Whether the limit, if there is one, is reached.
fn is_limit(most: Option<usize>, pivots: usize) -> bool
    requires { UpTo most pivots }
    ensures reached { result ≡ true → most ≡ Some pivots }
    ensures below { result ≡ false → Below most pivots }
{
    match most {
        Some(most) => pivots == most,
        None => false,
    }
}

/// Makes the pivot in a column, and the row that exits for it, where the scratch has the rows of this column.
fn make_pivot(
    alloc: Global,
    system: &System,
    column: u32,
    table: &mut Table,
    scratch: &mut Scratch,
) -> Result<(), Fault>
    requires fits { right system.now < 2 ^ 32 }
    requires column { column < right system.now }
    requires height { length table.old.rows.items ≡ system.now.unknowns }
    requires basis { length table.old.basis.items ≡ length table.old.rows.items }
    requires ready { IsReady (right system.now) table.old scratch.old }
    requires found { AreFound column table.old scratch.old }
    ensures made { OnOk result (IsMade system.now column table.old table.new) }
    ensures ready { OnOk result (IsReady (right system.now) table.new scratch.new) }
    ensures leaves { (i c : ℕ) → result ≡ Err (Fault.Leaves i c) → IsNotMade system.now column table.old table.new i c }
{
    let slack = system.rows().len() as u32;
    let right = slack + system.unknowns();
    let height = table.rows.len();
    let row = exiting(alloc, &table.rows, column, slack, right, &scratch.bounding)?;
    pivot(
        alloc,
        &mut table.rows,
        &mut table.gains,
        &scratch.touching,
        Place { row, column },
        right as usize + 1,
        &mut scratch.rows,
    )?;
    table.rows[row].columns(&mut scratch.columns)?;
    write(&mut scratch.gains, &table.gains, &scratch.columns);
    follow(
        &mut scratch.marks,
        height,
        &scratch.columns,
        &scratch.touching,
        column,
        row,
    );
    table.basis[row] = column;
    table.pivots.push((row as u32, column))?;
    Ok(())
}

/// One step: a pivot by the rule, or how the course ends or is cut. Whether it ends is asked before the limit,
/// and the limit before any ratio is computed.
pub(crate) fn make_step<F: Fn(&[Frac]) -> Option<usize>>(
    alloc: Global,
    system: &System,
    chooser: &Chooser<F>,
    most: Option<usize>,
    table: &mut Table,
    scratch: &mut Scratch,
) -> Result<Step, AllocError>
    requires callable { F.IsAlwaysCallable chooser.now }
    requires chooses { IsChooser F.Fn chooser.now }
    requires sound { IsSystem system.now }
    requires columns { right system.now < 2 ^ 32 }
    requires reached { Reached (rule_of F.Fn chooser.now) system.now table.old }
    requires ready { IsReady (right system.now) table.old scratch.old }
    requires limit { UpTo most (length table.old.pivots.items) }
    ensures step { IfOk result (IsStep (rule_of F.Fn chooser.now) system.now most table.old table.new) }
    ensures ready { result ≡ Ok Step.Pivot → IsReady (right system.now) table.new scratch.new }
{
    let column = match entering(chooser, &scratch.gains) {
        Some(column) => column,
        None => return Ok(Step::Best),
    };
    touching(&table.rows, &scratch.marks, column, &mut scratch.touching)?;
    bounding(
        &table.rows,
        column,
        &scratch.touching,
        &mut scratch.bounding,
    )?;
    if scratch.bounding.is_empty() {
        return Ok(Step::Rises { column });
    }
    if is_limit(most, table.pivots.len()) {
        return Ok(Step::Cut);
    }
    match make_pivot(alloc, system, column, table, scratch) {
        Ok(()) => Ok(Step::Pivot),
        Err(fault) => stopped(fault),
    }
}

/// The scratch of steps from this table on, with this many columns before the right sides.
pub(crate) fn new_scratch(
    alloc: Global,
    table: &Table,
    columns: usize,
) -> Result<Scratch, AllocError>
    ensures { IfOk result (IsReady columns table.now) }
{
    let mut of_row = Vec::with_capacity(alloc, columns)?;
    Ok(Scratch {
        rows: RowScratch::new(alloc),
        marks: covering(alloc, &table.rows, columns, &mut of_row)?,
        gains: first_of(alloc, &table.gains, columns, &mut of_row)?,
        columns: of_row,
        touching: Vec::with_capacity(alloc, table.rows.len())?,
        bounding: Vec::with_capacity(alloc, table.rows.len())?,
    })
}

/// Makes steps from the opening table on, until the course ends or is cut.
fn run<F: Fn(&[Frac]) -> Option<usize>>(
    alloc: Global,
    system: &System,
    chooser: &Chooser<F>,
    most: Option<usize>,
    mut table: Table,
) -> Result<Within, AllocError>
    requires callable { F.IsAlwaysCallable chooser.now }
    requires chooses { IsChooser F.Fn chooser.now }
    requires fits { right system.now < 2 ^ 32 }
    requires opens { IsOpening system.now table }
    ensures within { IfOk result (IsWithin (rule_of F.Fn chooser.now) system.now most) }
    ensures cut { IfOk result
        (λ within. AnswersOnce (rule_of F.Fn chooser.now) → (SaysCut within ↔ CutsBy (rule_of F.Fn chooser.now) system.now most)) }
{
    let columns = system.rows().len() + system.unknowns() as usize;
    let mut scratch = new_scratch(alloc, &table, columns)?;
    loop {
        match make_step(alloc, system, chooser, most, &mut table, &mut scratch)? {
            Step::Pivot => {}
            Step::Best => {
                let x = solution(alloc, system, &table)?;
                let dual = dual(alloc, system, &table)?;
                return Ok(Within::Answered(Answer::Best {
                    x,
                    dual,
                    pivots: table.pivots,
                }));
            }
            Step::Rises { column } => {
                let farkas = ray(alloc, system, &table, column)?;
                return Ok(Within::Answered(Answer::NoSolution {
                    farkas,
                    pivots: table.pivots,
                }));
            }
            Step::Leaves { row, column } => {
                return Ok(Within::Answered(Answer::Leaves {
                    pivots: table.pivots,
                    row,
                    col: column,
                }));
            }
            Step::Cut => {
                return Ok(Within::Cut {
                    pivots: table.pivots,
                });
            }
        }
    }
}

/// Solves a system with at most so many pivots, with the entering columns of the chooser. Without a limit it
/// is never cut. Where its rule has one answer for the same gains, it is cut exactly where so many pivots are
/// made and neither end is reached: that no gain is left, or that no row bounds the rule's column.
pub fn solve_within<F: Fn(&[Frac]) -> Option<usize>>(
    alloc: Global,
    system: &System,
    chooser: &Chooser<F>,
    most: Option<usize>,
) -> Result<Within, AllocError>
    requires callable { F.IsAlwaysCallable chooser.now }
    requires chooses { IsChooser F.Fn chooser.now }
    requires fits { right system.now < 2 ^ 32 }
    ensures within { IfOk result (IsWithin (rule_of F.Fn chooser.now) system.now most) }
    ensures none { (answer : Answer) → result ≡ Ok (Within.Answered answer) → AnswersOnce (rule_of F.Fn chooser.now) →
        (SaysNone answer ↔ RisesBy (rule_of F.Fn chooser.now) system.now) }
    ensures cut { IfOk result
        (λ within. AnswersOnce (rule_of F.Fn chooser.now) → (SaysCut within ↔ CutsBy (rule_of F.Fn chooser.now) system.now most)) }
    ensures never { most ≡ None → IfOk result (λ within. SaysCut within → ⊥) }
{
    match opening(alloc, system) {
        Ok(table) => run(alloc, system, chooser, most, table),
        Err(Fault::NoMemory) => Err(AllocError),
        Err(Fault::Leaves { row, column }) => Ok(Within::Answered(Answer::Leaves {
            pivots: Vec::new(alloc),
            row: row as u32,
            col: column,
        })),
    }
}

/// Solves a system, with the entering columns of the chooser. Where its rule has one answer for the same
/// gains, there is no solution exactly where no row bounds a column that enters so.
pub fn solve<F: Fn(&[Frac]) -> Option<usize>>(
    alloc: Global,
    system: &System,
    chooser: &Chooser<F>,
) -> Result<Answer, AllocError>
    requires callable { F.IsAlwaysCallable chooser.now }
    requires chooses { IsChooser F.Fn chooser.now }
    requires fits { right system.now < 2 ^ 32 }
    ensures answer { IfOk result (IsAnswer (rule_of F.Fn chooser.now) system.now) }
    ensures none { IfOk result
        (λ answer. AnswersOnce (rule_of F.Fn chooser.now) → (SaysNone answer ↔ RisesBy (rule_of F.Fn chooser.now) system.now)) }
{
    match solve_within(alloc, system, chooser, None)? {
        Within::Answered(answer) => Ok(answer),
        Within::Cut { .. } => unreachable!(),
    }
}

/// Solves a system with two choosers. Unless a number leaves the range of fractions, both answers are best,
/// with equal weighted sums, or both say that there is no solution.
pub fn agree<F: Fn(&[Frac]) -> Option<usize>, G: Fn(&[Frac]) -> Option<usize>>(
    alloc: Global,
    system: &System,
    first: &Chooser<F>,
    second: &Chooser<G>,
) -> Result<(Answer, Answer), AllocError>
    requires first_callable { F.IsAlwaysCallable first.now }
    requires first_chooses { IsChooser F.Fn first.now }
    requires second_callable { G.IsAlwaysCallable second.now }
    requires second_chooses { IsChooser G.Fn second.now }
    requires fits { right system.now < 2 ^ 32 }
    ensures first { IfOk result (λ pair. IsAnswer (rule_of F.Fn first.now) system.now pair.0) }
    ensures second { IfOk result (λ pair. IsAnswer (rule_of G.Fn second.now) system.now pair.1) }
    ensures agree { IfOk result (λ pair. Agree system.now pair.0 pair.1) }
{
    let one = solve(alloc, system, first)?;
    let other = solve(alloc, system, second)?;
    Ok((one, other))
}
