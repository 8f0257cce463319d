// The table of runs.
ghost use Rattle.std.specs.Prelude.{◌≡◌, ◌<◌, ◌^◌, ◌++◌, OnOk, string_bytes};
ghost use Rattle.explain_chart.specs.Read.{mark_in, marks_in};
ghost use Rattle.explain_plot.specs.Table.{bound_text, hundredths, quotient, ratio, row, rows, table};

use explain_chart::Mark;
use std::alloc::AllocError;
use std::fmt::Write;

/// Appends the table: a line for each run, with a tab between its columns.
pub(crate) fn push_table(text: &mut String, marks: &[Mark<'_>]) -> Result<(), AllocError>
    ensures { OnOk result (string_bytes text.new ≡ string_bytes text.old ++ table (marks_in marks.now)) }
{
    text.push_str("size\tmeasured\tbound\tratio\targuments\n")?;
    push_rows(text, marks)
}

fn push_rows(text: &mut String, marks: &[Mark<'_>]) -> Result<(), AllocError>
    ensures { OnOk result (string_bytes text.new ≡ string_bytes text.old ++ rows (marks_in marks.now)) }
{
    match marks {
        [] => Ok(()),
        [first, rest @ ..] => {
            push_row(text, first)?;
            push_rows(text, rest)
        }
    }
}

/// Appends the line of a run.
fn push_row(text: &mut String, mark: &Mark<'_>) -> Result<(), AllocError>
    ensures { OnOk result (string_bytes text.new ≡ string_bytes text.old ++ row (mark_in mark.now)) }
{
    let Mark {
        size,
        kind,
        cost,
        bound,
    } = *mark;
    write!(text, "{size}\t{cost}\t")?;
    push_bound(text, bound)?;
    push_ratio(text, bound, u128::from(cost))?;
    write!(text, "\t{kind}\n")
}

/// Appends a bound and a tab.
fn push_bound(text: &mut String, bound: Option<u128>) -> Result<(), AllocError>
    ensures { OnOk result (string_bytes text.new ≡ string_bytes text.old ++ bound_text bound) }
{
    match bound {
        Some(bound) => write!(text, "{bound}\t"),
        None => text.push_str("-\t"),
    }
}

/// Appends how often the cost goes into the bound.
fn push_ratio(text: &mut String, bound: Option<u128>, cost: u128) -> Result<(), AllocError>
    requires { cost < 2 ^ 64 }
    ensures { OnOk result (string_bytes text.new ≡ string_bytes text.old ++ ratio bound cost) }
{
    match bound {
        Some(bound) => push_quotient(text, bound, cost),
        None => text.push_str("-"),
    }
}

fn push_quotient(text: &mut String, bound: u128, cost: u128) -> Result<(), AllocError>
    requires { cost < 2 ^ 64 }
    ensures { OnOk result (string_bytes text.new ≡ string_bytes text.old ++ quotient bound cost) }
{
    if cost == 0 {
        return text.push_str("-");
    }
    push_hundredths(text, bound / cost, bound % cost * 100 / cost)
}

fn push_hundredths(text: &mut String, whole: u128, part: u128) -> Result<(), AllocError>
    ensures { OnOk result (string_bytes text.new ≡ string_bytes text.old ++ hundredths whole part) }
{
    let tens = part / 10;
    let ones = part % 10;
    write!(text, "{whole}.{tens}{ones}")
}
