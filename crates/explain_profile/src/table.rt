// The table of a profile.
ghost use Rattle.std.specs.Prelude.{◌≡◌, ◌++◌, IfOk, OnOk, string_bytes};
ghost use Rattle.raml_syntax.specs.Tree.{Text};
ghost use Rattle.raml_syntax.specs.Read.{function_of};
ghost use Rattle.base_poly.specs.Read.{context_of};
ghost use Rattle.explain_algebra.specs.Algebra as a;
ghost use Rattle.explain_at.specs.Read.{texts};
ghost use Rattle.explain_profile.specs.Rows as r;
ghost use Rattle.explain_profile.specs.Rows.{AreLaidOut, AreShown, IsTable, line_with, meaning, row_cells};
ghost use Rattle.explain_profile.specs.Read.{case_of, text_in};

use crate::cells::{cells, heading};
use crate::columns::{Columns, push_cells};
use crate::rows::Row;
use crate::runs::Case;
use explain_algebra::{are_shallow, push_legend, size_names};
use explain_bounds::{parameter_names, parameter_types};
use explain_places::{Place, line_at};
use raml_syntax::{Fun, Ty};
use std::alloc::{AllocError, Global};

/// The cells of a row.
fn cells_in(alloc: Global, case: Case<'_>, row: &Row) -> Result<Vec<String>, AllocError>
    ensures { IfOk result (λ cells. texts cells.items ≡ row_cells (case_of case.entry) row.now) }
{
    let number = Place::of(case.source, row.line.at.0 as usize).line as u128;
    cells(alloc, case.sizes.is_some(), number, &row.line, &row.runs)
}

/// Columns as wide as the cells of all rows and those above them.
fn columns_for(
    alloc: Global,
    case: Case<'_>,
    rows: &[Row],
    heading: &[String],
) -> Result<Columns, AllocError> {
    let mut columns = Columns::of(alloc, heading)?;
    for row in rows {
        let cells = cells_in(alloc, case, row)?;
        columns.widen(&cells);
    }
    Ok(columns)
}

/// Appends a row, with the line of the source behind its cells.
fn push_row(
    alloc: Global,
    text: &mut String,
    case: Case<'_>,
    columns: &Columns,
    row: &Row,
) -> Result<(), AllocError>
    ensures { OnOk result ((part : Text) × AreLaidOut (row_cells (case_of case.entry) row.now) part
        × (string_bytes text.new ≡ string_bytes text.old ++ part)) }
{
    let cells = cells_in(alloc, case, row)?;
    let shown = line_at(case.source, row.line.at.0 as usize);
    push_cells(text, columns, 0, &cells, shown)
}

/// Appends rows.
fn push_rows(
    alloc: Global,
    text: &mut String,
    case: Case<'_>,
    columns: &Columns,
    rows: &[Row],
) -> Result<(), AllocError>
    ensures { OnOk result ((part : Text) × AreShown (case_of case.entry) rows.now part
        × (string_bytes text.new ≡ string_bytes text.old ++ part)) }
{
    for row in rows {
        push_row(alloc, text, case, columns, row)?;
    }
    Ok(())
}

/// What the names of the parameters' sizes mean.
fn sizes_meaning(alloc: Global, types: &[Ty], names: &[&str]) -> Result<String, AllocError>
    ensures { IfOk result (λ text. string_bytes text ≡ r.sizes_meaning (context_of types.now) (a.texts names.now)) }
{
    let mut text = String::new(alloc);
    if are_shallow(types) {
        let sizes = size_names(alloc, types, names)?;
        push_legend(&mut text, &sizes, names)?;
    }
    Ok(text)
}

/// Appends a line, where something has to be said.
fn push_line(text: &mut String, line: &str) -> Result<(), AllocError>
    ensures { OnOk result (string_bytes text.new ≡ string_bytes text.old ++ line_with line.now) }
{
    if line.is_empty() {
        Ok(())
    } else {
        text.push_str(line)?;
        text.push('\n')
    }
}

/// Appends what the names of sizes mean, in a line.
fn push_meaning(alloc: Global, text: &mut String, fun: &Fun) -> Result<(), AllocError>
    ensures { OnOk result (string_bytes text.new ≡ string_bytes text.old ++ line_with (meaning (function_of fun.now))) }
{
    let types = parameter_types(alloc, &fun.params)?;
    let names = parameter_names(alloc, &fun.params)?;
    let meaning = sizes_meaning(alloc, &types, &names)?;
    push_line(text, &meaning)
}

/// Appends the table of rows: what stands above them, where words give sizes; the rows; and what the names of sizes mean.
pub(crate) fn push_table(
    alloc: Global,
    text: &mut String,
    case: Case<'_>,
    fun: &Fun,
    words: Option<&str>,
    rows: &[Row],
) -> Result<(), AllocError>
    ensures { OnOk result ((part : Text) × IsTable (case_of case.entry) (text_in words.entry) (function_of fun.now) rows.now part
        × (string_bytes text.new ≡ string_bytes text.old ++ part)) }
{
    let heading = heading(alloc, words)?;
    let columns = columns_for(alloc, case, rows, &heading)?;
    push_cells(text, &columns, 0, &heading, &[])?;
    push_rows(alloc, text, case, &columns, rows)?;
    push_meaning(alloc, text, fun)
}
