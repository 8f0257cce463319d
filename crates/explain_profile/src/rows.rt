// Lines, each with how often it is run at most.
ghost use Rattle.std.specs.Prelude.{◌≡◌, ◌≤◌, All, IfOk, OnOk, IfSome};
ghost use Rattle.std.specs.Rc.{rc_value};
ghost use Rattle.explain_regions.specs.Counter.{IsLexed};
ghost use Rattle.explain_regions.specs.Read.{plain_lines};
ghost use Rattle.explain_profile.specs.Runs.{AreRunsAt};
ghost use Rattle.explain_profile.specs.Rows as r;
ghost use Rattle.explain_profile.specs.Rows.{all_lines, AreArranged, IsCounted};
ghost use Rattle.explain_profile.specs.Read.{case_of, IsRowOf};

use crate::runs::{Case, Runs, runs_of_region};
use explain_regions::Line;
use raml_syntax::Pos;
use std::alloc::{AllocError, Global};
use std::rc::Rc;

/// A line, and how often its region is run at most. Lines of one region share that.
#[derive(Drop)]
pub(crate) struct Row {
    pub(crate) line: Line,
    pub(crate) runs: Rc<Runs>,
}

/// What so many runs cost.
pub(crate) fn in_all(number: Option<u128>, cost: u128) -> Option<u128>
    ensures { result ≡ r.in_all number cost }
{
    match number {
        Some(number) => number.checked_mul(cost),
        None => None,
    }
}

impl Row {
    /// Less is what comes first at sizes: what is not known, and then what costs most.
    fn rank(&self) -> u128
        ensures { result ≡ r.rank (r.work_in_all self.now) }
    {
        match in_all(self.runs.number(), self.line.work) {
            Some(work) => u128::MAX - work,
            None => 0,
        }
    }
}

/// The first row of this region.
fn find(rows: &[Row], region: Pos) -> Option<&Row>
    ensures { IfSome result (λ found. IsRowOf rows.now region.0 found.now) }
{
    for row in rows {
        if row.line.region.0 == region.0 {
            return Some(row);
        }
    }
    None
}

/// How often a region is run at most: what a row of the region has, or else what is found.
fn runs_for(
    alloc: Global,
    case: Case<'_>,
    region: Pos,
    rows: &[Row],
) -> Result<Rc<Runs>, AllocError>
    requires most { case.most ≤ 4 }
    requires lexed { IsLexed case.source.now }
    requires counted { All (IsCounted (case_of case)) rows.now }
    ensures { IfOk result (λ runs. AreRunsAt (case_of case.entry) region.0 (rc_value runs)) }
{
    match find(rows, region) {
        Some(row) => row.runs.clone(),
        None => Ok(Rc::new(alloc, runs_of_region(alloc, case, region)?)?),
    }
}

/// The rows of lines. Each region is counted once.
pub(crate) fn rows_of(alloc: Global, case: Case<'_>, lines: &[Line]) -> Result<Vec<Row>, AllocError>
    requires most { case.most ≤ 4 }
    requires lexed { IsLexed case.source.now }
    ensures lines { IfOk result (λ rows. all_lines rows.items ≡ plain_lines lines.now) }
    ensures counted { IfOk result (λ rows. All (IsCounted (case_of case.entry)) rows.items) }
{
    let mut rows = Vec::new(alloc);
    for line in lines {
        let runs = runs_for(alloc, case, line.region, &rows)?;
        rows.push(Row { line: *line, runs })?;
    }
    Ok(rows)
}

/// Puts rows at sizes in the order of what all runs of their lines cost, the dearest first.
pub(crate) fn arrange(is_sized: bool, rows: &mut Vec<Row>) -> Result<(), AllocError>
    ensures { OnOk result (AreArranged is_sized rows.old.items rows.new.items) }
{
    if is_sized {
        rows.sort_by_key(|row| row.rank())
    } else {
        Ok(())
    }
}
