// The cells of the row of a line.
ghost use Rattle.std.specs.Prelude.{◌≡◌, [], ◌∷◌, ◌++◌, IfOk, IsTrue, false, OnOk, decimal, codes};
ghost use Rattle.explain_at.specs.Read.{texts};
ghost use Rattle.explain_regions.specs.Read.{plain_line};
ghost use Rattle.explain_profile.specs.Read.{text_in};
ghost use Rattle.explain_profile.specs.Rows as r;
ghost use Rattle.explain_profile.specs.declared.runs.Runs.TheVariants as v;

use crate::rows::in_all;
use crate::runs::Runs;
use explain_regions::Line;
use std::alloc::{AllocError, Global};

impl Runs {
    fn text(&self) -> &str
        ensures { result.now ≡ r.runs_text self.now }
    {
        match self {
            Runs::AtMost { sum, .. } => sum.as_str(),
            Runs::NoBound => "no bound",
            Runs::NotAnalysed => "not analysed",
        }
    }

    /// Whether no analysis could be made.
    pub(crate) fn are_unknown(&self) -> bool
        ensures unknown { IsTrue result → self.now ≡ v.NotAnalysed }
        ensures analysed { result ≡ false → r.IsAnalysed self.now }
    {
        match self {
            Runs::AtMost { .. } => false,
            Runs::NoBound => false,
            Runs::NotAnalysed => true,
        }
    }

    /// How many there are at the sizes that are given, where that is known.
    pub(crate) fn number(&self) -> Option<u128>
        ensures { result ≡ r.number_at self.now }
    {
        match self {
            Runs::AtMost { at, .. } => *at,
            Runs::NoBound => None,
            Runs::NotAnalysed => None,
        }
    }
}

fn push_text(alloc: Global, cells: &mut Vec<String>, text: &str) -> Result<(), AllocError>
    ensures { OnOk result (texts cells.new.items ≡ texts cells.old.items ++ (text.now ∷ [])) }
{
    cells.push(String::from_str(alloc, text)?)?;
    Ok(())
}

fn push_number(alloc: Global, cells: &mut Vec<String>, number: u128) -> Result<(), AllocError>
    ensures { OnOk result (texts cells.new.items ≡ texts cells.old.items ++ (decimal number ∷ [])) }
{
    cells.push(format!(in alloc; "{number}")?)?;
    Ok(())
}

fn push_known(
    alloc: Global,
    cells: &mut Vec<String>,
    number: Option<u128>,
) -> Result<(), AllocError>
    ensures { OnOk result (texts cells.new.items ≡ texts cells.old.items ++ (r.number_text number ∷ [])) }
{
    match number {
        Some(number) => push_number(alloc, cells, number),
        None => push_text(alloc, cells, "-"),
    }
}

/// Adds what one run of the line costs.
fn push_costs(alloc: Global, cells: &mut Vec<String>, line: &Line) -> Result<(), AllocError>
    ensures { OnOk result (texts cells.new.items
        ≡ texts cells.old.items ++ (decimal line.now.ticks ∷ decimal line.now.cells ∷ decimal line.now.work ∷ [])) }
{
    push_number(alloc, cells, line.ticks)?;
    push_number(alloc, cells, line.cells)?;
    push_number(alloc, cells, line.work)
}

/// Adds the number of the line, and how often it is run.
fn push_runs(
    alloc: Global,
    cells: &mut Vec<String>,
    number: u128,
    runs: &Runs,
) -> Result<(), AllocError>
    ensures { OnOk result (texts cells.new.items ≡ texts cells.old.items ++ (decimal number ∷ r.runs_text runs.now ∷ [])) }
{
    push_number(alloc, cells, number)?;
    push_text(alloc, cells, runs.text())
}

/// Adds how often it is run at sizes, what one run costs, and the work of all these runs.
fn push_sized(
    alloc: Global,
    cells: &mut Vec<String>,
    line: &Line,
    number: Option<u128>,
) -> Result<(), AllocError>
    ensures { OnOk result (texts cells.new.items
        ≡ texts cells.old.items ++ (r.number_text number ∷ decimal line.now.ticks ∷ decimal line.now.cells ∷ decimal line.now.work
        ∷ r.number_text (r.in_all number line.now.work) ∷ [])) }
{
    push_known(alloc, cells, number)?;
    push_costs(alloc, cells, line)?;
    push_known(alloc, cells, in_all(number, line.work))
}

/// The cells of a line.
pub(crate) fn cells(
    alloc: Global,
    is_sized: bool,
    number: u128,
    line: &Line,
    runs: &Runs,
) -> Result<Vec<String>, AllocError>
    ensures { IfOk result (λ cells. texts cells.items ≡ r.cells_of is_sized number (plain_line line.now) runs.now) }
{
    let mut cells = Vec::with_capacity(alloc, 7)?;
    push_runs(alloc, &mut cells, number, runs)?;
    if is_sized {
        push_sized(alloc, &mut cells, line, runs.number())?;
    } else {
        push_costs(alloc, &mut cells, line)?;
    }
    Ok(cells)
}

/// Adds what stands above the costs of one run.
fn push_meters(alloc: Global, cells: &mut Vec<String>) -> Result<(), AllocError>
    ensures { OnOk result (texts cells.new.items
        ≡ texts cells.old.items ++ (codes "ticks" ∷ codes "cells" ∷ codes "work" ∷ [])) }
{
    push_text(alloc, cells, "ticks")?;
    push_text(alloc, cells, "cells")?;
    push_text(alloc, cells, "work")
}

/// Adds what stands above numbers at sizes that words give.
fn push_sizes(alloc: Global, cells: &mut Vec<String>, words: &str) -> Result<(), AllocError>
    ensures { OnOk result (texts cells.new.items
        ≡ texts cells.old.items
        ++ ((codes "at " ++ words.now) ∷ codes "ticks" ∷ codes "cells" ∷ codes "work" ∷ codes "work in all" ∷ [])) }
{
    cells.push(format!(in alloc; "at {words}")?)?;
    push_meters(alloc, cells)?;
    push_text(alloc, cells, "work in all")
}

/// The cells above those of lines, where words give sizes.
pub(crate) fn heading(alloc: Global, words: Option<&str>) -> Result<Vec<String>, AllocError>
    ensures { IfOk result (λ cells. texts cells.items ≡ r.heading (text_in words.entry)) }
{
    let mut cells = Vec::with_capacity(alloc, 7)?;
    push_text(alloc, &mut cells, "line")?;
    push_text(alloc, &mut cells, "runs at most")?;
    match words {
        Some(words) => push_sizes(alloc, &mut cells, words)?,
        None => push_meters(alloc, &mut cells)?,
    }
    Ok(cells)
}
