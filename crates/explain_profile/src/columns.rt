// Cells in columns.
ghost use Rattle.std.specs.Prelude.{◌≡◌, ◌++◌, ℕ, OnOk, string_bytes};
ghost use Rattle.raml_syntax.specs.Tree.{Text};
ghost use Rattle.explain_at.specs.Read.{texts};
ghost use Rattle.explain_profile.specs.Rows.{spaces, AreLaidOut};

use std::alloc::{AllocError, Global};

/// What stands for a character that can't be shown.
const NOT_SHOWN: char = '\u{fffd}';

/// How many characters a text has.
fn width(text: &str) -> usize {
    let mut count: usize = 0;
    for _ in text.chars() {
        count = count.saturating_add(1);
    }
    count
}

/// How wide the cells of columns are, from the first on.
#[derive(Drop)]
pub(crate) struct Columns {
    widths: Vec<usize>,
}

impl Columns {
    /// As many columns as there are cells in a row, as wide as these.
    pub(crate) fn of(alloc: Global, cells: &[String]) -> Result<Columns, AllocError> {
        let mut widths = Vec::new(alloc);
        for cell in cells {
            widths.push(width(cell))?;
        }
        Ok(Columns { widths })
    }

    /// At least as wide as these cells.
    pub(crate) fn widen(&mut self, cells: &[String]) {
        let mut place = 0;
        for cell in cells {
            if place < self.widths.len() {
                self.widths[place] = self.widths[place].max(width(cell));
                place += 1;
            }
        }
    }

    /// How many spaces a cell of a column needs.
    fn pad(&self, place: usize, cell: &str) -> usize {
        match self.widths.get(place) {
            Some(wide) => wide.saturating_sub(width(cell)),
            None => 0,
        }
    }

    /// How many spaces stand before a cell, and how many behind it: numbers stand to the right.
    fn around(&self, place: usize, cell: &str) -> (usize, usize) {
        let pad = self.pad(place, cell);
        match place {
            0 => (pad, 0),
            1 => (2, pad),
            _ => (pad.saturating_add(2), 0),
        }
    }
}

fn push_spaces(text: &mut String, count: usize) -> Result<(), AllocError>
    ensures { OnOk result (string_bytes text.new ≡ string_bytes text.old ++ spaces count) }
{
    for _ in 0..count {
        text.push(' ')?;
    }
    Ok(())
}

fn push_cell(
    text: &mut String,
    columns: &Columns,
    place: usize,
    cell: &str,
) -> Result<(), AllocError>
    ensures { OnOk result ((before : ℕ) × (behind : ℕ)
        × (string_bytes text.new ≡ string_bytes text.old ++ (spaces before ++ (cell.now ++ spaces behind)))) }
{
    let (before, behind) = columns.around(place, cell);
    push_spaces(text, before)?;
    text.push_str(cell)?;
    push_spaces(text, behind)
}

fn push_characters(line: &str, text: &mut String) -> Result<(), AllocError>
    ensures { OnOk result ((rest : Text) × (string_bytes text.new ≡ string_bytes text.old ++ rest)) }
{
    for c in line.chars() {
        text.push(if c == '\t' || !c.is_control() {
            c
        } else {
            NOT_SHOWN
        })?;
    }
    Ok(())
}

/// Appends a line behind two spaces, where it is not empty.
fn push_shown(line: &str, text: &mut String) -> Result<(), AllocError>
    ensures { OnOk result ((rest : Text) × (string_bytes text.new ≡ string_bytes text.old ++ rest)) }
{
    if line.is_empty() {
        Ok(())
    } else {
        text.push_str("  ")?;
        push_characters(line, text)
    }
}

/// Appends a line of a source, as a terminal can show it, behind two spaces.
fn push_source(line: &[u8], text: &mut String) -> Result<(), AllocError>
    ensures { OnOk result ((rest : Text) × (string_bytes text.new ≡ string_bytes text.old ++ rest)) }
{
    match std::str::from_utf8(line) {
        Ok(line) => push_shown(line, text),
        Err(_) => text.push(NOT_SHOWN),
    }
}

/// Appends cells from a column on, and a line of a source behind them.
pub(crate) fn push_cells(
    text: &mut String,
    columns: &Columns,
    place: usize,
    cells: &[String],
    line: &[u8],
) -> Result<(), AllocError>
    ensures { OnOk result ((part : Text) × AreLaidOut (texts cells.now) part
        × (string_bytes text.new ≡ string_bytes text.old ++ part)) }
{
    match cells {
        [] => {
            push_source(line, text)?;
            text.push('\n')
        }
        [cell, rest @ ..] => {
            push_cell(text, columns, place, cell)?;
            push_cells(text, columns, place.saturating_add(1), rest, line)
        }
    }
}
