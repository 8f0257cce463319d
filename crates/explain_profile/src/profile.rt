// The profile of a function.
ghost use Rattle.std.specs.Prelude.{◌≡◌, ◌≤◌, ◌++◌, length, All, IfOk, IsTrue, false, string_bytes};
ghost use Rattle.raml_syntax.specs.Tree.{Text};
ghost use Rattle.raml_syntax.specs.Read.{program_of, function_of};
ghost use Rattle.explain_regions.specs.Counter.{IsLexed};
ghost use Rattle.explain_profile.specs.Profile.{AreRowsOf, IsProfileIf};
ghost use Rattle.explain_profile.specs.Rows.{runs_of, HasAnalysed};
ghost use Rattle.explain_profile.specs.Read.{case_of, text_in};
ghost use Rattle.explain_profile.specs.declared.runs.Runs.TheVariants as r;

use crate::lines::reached_lines;
use crate::rows::{Row, arrange, rows_of};
use crate::runs::Case;
use crate::table::push_table;
use raml_syntax::{Fun, FunId, Program};
use std::alloc::{AllocError, Global};

/// Whether no line could be analysed.
fn are_unanalysed(rows: &[Row]) -> bool
    ensures none { IsTrue result → All (λ row. runs_of row ≡ r.NotAnalysed) rows.now }
    ensures some { result ≡ false → HasAnalysed rows.now }
{
    for row in rows {
        if !row.runs.are_unknown() {
            return false;
        }
    }
    true
}

/// The rows of the lines of a function and of those that it reaches by calls.
fn reached_rows(
    alloc: Global,
    case: Case<'_>,
    program: &Program,
    fun: FunId,
) -> Result<Vec<Row>, AllocError>
    requires most { case.most ≤ 4 }
    requires lexed { IsLexed case.source.now }
    requires few { length (program_of program.now) ≤ 256 }
    ensures { IfOk result (λ rows. AreRowsOf (case_of case.entry) (program_of program.now) fun.0 rows.items) }
{
    let lines = reached_lines(alloc, case.source, program, fun)?;
    rows_of(alloc, case, &lines)
}

/// Appends how often each line is run at most by a call of a function: a table of its lines and of those that it reaches by
/// calls. The words that give sizes stand above the numbers. Appends nothing, and tells this, where no line can be
/// counted.
pub fn push_profile(
    alloc: Global,
    text: &mut String,
    case: Case<'_>,
    program: &Program,
    fun: FunId,
    function: &Fun,
    words: Option<&str>,
) -> Result<bool, AllocError>
    requires most { case.most ≤ 4 }
    requires lexed { IsLexed case.source.now }
    requires few { length (program_of program.now) ≤ 256 }
    ensures { IfOk result (λ is_told. (part : Text)
        × IsProfileIf is_told (case_of case.entry) (text_in words.entry) (program_of program.now) fun.0 (function_of function.now) part
        × (string_bytes text.new ≡ string_bytes text.old ++ part)) }
{
    let mut rows = reached_rows(alloc, case, program, fun)?;
    if are_unanalysed(&rows) {
        return Ok(false);
    }
    arrange(case.sizes.is_some(), &mut rows)?;
    push_table(alloc, text, case, function, words, &rows)?;
    Ok(true)
}
