// What is told of declared bounds that are decided.
ghost use Rattle.std.specs.Prelude.{◌≡◌, ◌≤◌, ◌<◌, ◌++◌, List, length, slice_get, slice_index_or, Some, IfOk, IfSome, OnOk, string_bytes};
ghost use Rattle.raml_syntax.specs.Tree.{Text};
ghost use Rattle.raml_syntax.specs.Read.{function_of, program_of};
ghost use Rattle.raml_syntax.specs.Types.{types_of};
ghost use Rattle.bound_file.specs.Read.{line_of, IsSound};
ghost use Rattle.explain_verdicts.specs.Fractions.{ArePlaced};
ghost use Rattle.explain_verdicts.specs.Written.{IsFound};
ghost use Rattle.explain_at.specs.Read.{texts};
ghost use Rattle.explain_budget.specs.Telling.{all_kept, AreObjects, AreTold, TellsJudged};
ghost use Rattle.explain_budget.specs.Written.{CanBeTold, end_of};

use crate::asked::Asked;
use crate::end::BudgetEnd;
use bound_file::{DeclLine, Declared};
use explain_calls::push_shown;
use explain_json::push_line;
use explain_verdicts::{Judged, Verdict, verdict_line, write_verdict};
use json::Writer;
use raml_syntax::{Fun, Program};
use std::alloc::{AllocError, Global};

/// Appends what is told of lines that are decided: in words, broken at the width where there is one, or as JSON.
pub(crate) fn push_judged(
    alloc: Global,
    text: &mut String,
    program: &Program,
    declared: &Declared,
    judged: &[Judged],
    asked: &Asked<'_>,
) -> Result<(), AllocError>
    requires { CanBeTold (program_of program.now) declared.now judged.now }
    ensures { OnOk result ((told : Text)
        × TellsJudged (program_of program.now) declared.now.degree asked.now.json asked.now.width declared.now.lines judged.now told
        × (string_bytes text.new ≡ string_bytes text.old ++ told)) }
{
    if asked.json {
        push_objects(alloc, text, program, declared, judged)
    } else {
        let lines = lines(alloc, program, declared, judged)?;
        push_shown(alloc, text, &lines, asked.width)
    }
}

// The lines in words.
fn lines(
    alloc: Global,
    program: &Program,
    declared: &Declared,
    judged: &[Judged],
) -> Result<Vec<String>, AllocError>
    requires { CanBeTold (program_of program.now) declared.now judged.now }
    ensures { IfOk result (λ lines.
        AreTold (program_of program.now) declared.now.degree declared.now.lines judged.now (texts lines.items)) }
{
    let degree = declared.degree();
    let mut lines = Vec::with_capacity(alloc, judged.len())?;
    for place in 0..judged.len() {
        let (line, fun) = line_at(program, declared, judged, place);
        lines.push(verdict_line(alloc, program, fun, degree, line, &judged[place])?)?;
    }
    Ok(lines)
}

// Appends the lines as JSON.
fn push_objects(
    alloc: Global,
    text: &mut String,
    program: &Program,
    declared: &Declared,
    judged: &[Judged],
) -> Result<(), AllocError>
    requires { CanBeTold (program_of program.now) declared.now judged.now }
    ensures { OnOk result ((told : Text)
        × AreObjects (program_of program.now) declared.now.degree declared.now.lines judged.now told
        × (string_bytes text.new ≡ string_bytes text.old ++ told)) }
{
    let degree = declared.degree();
    for place in 0..judged.len() {
        let (line, fun) = line_at(program, declared, judged, place);
        let mut writer = Writer::new(Vec::new(alloc));
        write_verdict(
            alloc,
            &mut writer,
            program,
            fun,
            degree,
            line,
            &judged[place],
        )?;
        push_line(text, writer)?;
    }
    Ok(())
}

// The line at a place, and its function.
fn line_at<'p, 'd>(
    program: &'p Program,
    declared: &'d Declared,
    judged: &[Judged],
    place: usize,
) -> (&'d DeclLine, &'p Fun)
    requires can { CanBeTold (program_of program.now) declared.now judged.now }
    requires below { place < length judged.now }
    ensures line { slice_get declared.now.lines place ≡ Some (line_of result.0.now) }
    ensures sound { IsSound result.0.now }
    ensures fun { slice_get (program_of program.now) result.0.now.fun.0 ≡ Some (function_of result.1.now) }
    ensures placed { ArePlaced (types_of (function_of result.1.now)) declared.now.degree (line_of result.0.now).bound }
    ensures found { (one : Judged) → one ≡ slice_index_or judged.now place one →
        IfSome one.found (IsFound (types_of (function_of result.1.now))) }
{
    let line = &declared.lines()[place];
    (line, &program.funs[line.fun.0 as usize])
}

/// How a call ends of which these lines are told.
pub(crate) fn end_of(judged: &[Judged]) -> BudgetEnd
    ensures { result ≡ end_of (all_kept judged.now) }
{
    if are_kept(judged) {
        BudgetEnd::AllKept
    } else {
        BudgetEnd::Broken
    }
}

// Whether each line is kept.
fn are_kept(judged: &[Judged]) -> bool
    ensures { result ≡ all_kept judged.now }
{
    for one in judged {
        if !matches!(one.verdict, Verdict::Kept) {
            return false;
        }
    }
    true
}
