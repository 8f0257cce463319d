// Sentences on changes by which functions have bounds.
ghost use Rattle.std.specs.Prelude.{◌≡◌, ◌<◌, ◌^◌, ◌++◌, length, IfOk, OnOk, string_bytes};
ghost use Rattle.raml_syntax.specs.Read.{program_of};
ghost use Rattle.explain_rounds.specs.Read.{calls_of};
ghost use Rattle.explain_sentences.specs.Changes as c;
ghost use Rattle.explain_sentences.specs.Read.{parameter_in, sentences_of};

use crate::sentence::{Sentence, begin_of};
use explain_exchange::Exchanged;
use explain_inline::{How, Inlined};
use explain_rounds::{GroupCall, group_calls};
use raml_syntax::{FunId, Param, Pos, Program};
use report_text::name_at;
use std::alloc::{AllocError, Global};

/// The place of the first of these calls, or else another one.
fn first_at(calls: &[GroupCall], other: Pos) -> Pos
    ensures { result.0 ≡ c.first_at other.0 (calls_of calls.now) }
{
    match calls {
        [] => other,
        [first, ..] => first.at,
    }
}

/// Where a function calls another one first, or else where it begins.
fn call_place(
    alloc: Global,
    program: &Program,
    caller: FunId,
    callee: FunId,
) -> Result<Pos, AllocError>
    requires { length (program_of program.now) < 2 ^ 32 }
    ensures { IfOk result (λ place. place.0 ≡ c.call_place (program_of program.now) caller.0 callee.0) }
{
    let calls = group_calls(alloc, program, &[callee], caller)?;
    Ok(first_at(&calls, begin_of(program, caller)))
}

/// How calls are written out.
fn written_out(how: How) -> &'static str
    ensures { result.now ≡ c.written_out how }
{
    match how {
        How::Inlined => "` are written out",
        How::Unfolded => "` are written out where these take apart what was just built",
    }
}

/// Why one has a bound once its calls of another one are written out.
fn why_inlined(
    alloc: Global,
    program: &Program,
    how: How,
    callee: FunId,
) -> Result<String, AllocError>
    ensures { IfOk result (λ why. string_bytes why ≡ c.why_inlined (program_of program.now) how callee.0) }
{
    let callee = name_at(program, callee);
    let written = written_out(how);
    format!(in alloc; "there is a bound once its calls of `{callee}{written}")
}

/// Adds that calls are written out in one function of the group.
pub(crate) fn add_inlined(
    alloc: Global,
    sentences: &mut Vec<Sentence>,
    program: &Program,
    inlined: &Inlined,
) -> Result<(), AllocError>
    requires { length (program_of program.now) < 2 ^ 32 }
    ensures { OnOk result (sentences_of sentences.new.items ≡ sentences_of sentences.old.items
        ++ c.of_inlined (program_of program.now) inlined.now.how inlined.now.caller.0 inlined.now.callee.0) }
{
    let at = call_place(alloc, program, inlined.caller, inlined.callee)?;
    let text = why_inlined(alloc, program, inlined.how, inlined.callee)?;
    sentences.push(Sentence { at, text })?;
    Ok(())
}

/// What is said behind it.
pub(crate) fn closing_of_inlined(how: How) -> &'static str
    ensures { result.now ≡ c.closing_of_inlined how }
{
    match how {
        How::Inlined =>
            "A result that hides which value it holds, as an option may, is paid for in every case; written out, each case pays for its own.\n",
        How::Unfolded =>
            "A call is paid for as if each of its cases could come; written out behind what was just built, only the one that comes is paid for.\n",
    }
}

/// A parameter of a function.
fn param_at(program: &Program, fun: FunId, place: usize) -> Option<&Param>
    ensures { parameter_in result ≡ c.parameter_at (program_of program.now) fun.0 place }
{
    match program.funs.get(fun.0 as usize) {
        Some(fun) => fun.params.get(place),
        None => None,
    }
}

/// Its name.
fn param_name(program: &Program, fun: FunId, place: usize) -> &str
    ensures { result.now ≡ c.name_in (c.parameter_at (program_of program.now) fun.0 place) }
{
    match param_at(program, fun, place) {
        Some(param) => param.name.text(),
        None => "",
    }
}

/// Where it stands, or else another place.
fn param_place(program: &Program, fun: FunId, place: usize, other: Pos) -> Pos
    ensures { result.0 ≡ c.place_in other.0 (c.parameter_at (program_of program.now) fun.0 place) }
{
    match param_at(program, fun, place) {
        Some(param) => param.at,
        None => other,
    }
}

/// Why one has a bound once two parameters of a function change places.
fn why_exchanged(
    alloc: Global,
    first: &str,
    second: &str,
    function: &str,
) -> Result<String, AllocError>
    ensures { IfOk result (λ why. string_bytes why ≡ c.why_exchanged first.now second.now function.now) }
{
    format!(in alloc;
        "there is a bound once `{first}` and `{second}` of `{function}` change places, here and in each call"
    )
}

/// Adds that two parameters change places.
pub(crate) fn add_exchanged(
    alloc: Global,
    sentences: &mut Vec<Sentence>,
    program: &Program,
    exchanged: &Exchanged,
) -> Result<(), AllocError>
    ensures { OnOk result (sentences_of sentences.new.items ≡ sentences_of sentences.old.items
        ++ c.of_exchanged (program_of program.now) exchanged.now.fun.0 exchanged.now.first exchanged.now.second) }
{
    let fun = exchanged.fun;
    let at = param_place(program, fun, exchanged.first, begin_of(program, fun));
    let first = param_name(program, fun, exchanged.first);
    let second = param_name(program, fun, exchanged.second);
    let text = why_exchanged(alloc, first, second, name_at(program, fun))?;
    sentences.push(Sentence { at, text })?;
    Ok(())
}
