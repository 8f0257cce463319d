// The texts of functions.
ghost use Rattle.std.specs.Prelude.{◌≡◌, ◌++◌, ℕ, length, slice_get, Some, Ok, true, IfOk, OnOk, string_bytes};
ghost use Rattle.raml_syntax.specs.Tree.{Text, Function};
ghost use Rattle.raml_syntax.specs.Types.{types_of};
ghost use Rattle.raml_syntax.specs.Read.{program_of, function_of};
ghost use Rattle.explain_at.specs.Read.{parameters, texts};
ghost use Rattle.explain_bounds.specs.Lines.{AreLines};
ghost use Rattle.explain_bounds.specs.Objects.{AreObjects};
ghost use Rattle.explain_bounds.specs.Told.{Told, told};
ghost use Rattle.explain_bounds.specs.Written.{AllCanBeTold, CanBeAsked};
ghost use Rattle.explain_calls.specs.Told.{told_or_nothing, AreShown, IsPart, AreParts};
ghost use Rattle.explain_words.specs.Spelled.{lent};
ghost use Rattle.explain_calls.specs.Sizes.{is_asked};
ghost use Rattle.explain_calls.specs.Read.{showing_in};

use crate::fitting::is_asked;
use explain_at::SizeFault;
use explain_bounds::{Asked, check_sizes, push_function, push_objects};
use explain_degrees::Findings;
use explain_text::wrapped;
use raml_syntax::{Fun, Program};
use std::alloc::{AllocError, Global};

/// By how many columns a line that is broken goes on.
const INDENT: usize = 4;

/// How what is told of a function is laid out.
#[derive(Clone, Copy, Debug)]
pub(crate) enum Layout {
    /// In lines, which are broken where they have a width.
    Lines { width: Option<u32> },
    /// In objects of JSON.
    Objects,
}

/// How bounds are shown.
#[derive(Clone, Copy, Debug)]
pub(crate) struct Showing<'a> {
    /// The one function that is asked for, or each.
    pub(crate) name: Option<&'a str>,
    /// What is told behind a bound.
    pub(crate) asked: Asked<'a>,
    pub(crate) layout: Layout,
}

/// Appends the texts of the functions of a program that are asked for, in the order of the source.
pub(crate) fn push_parts(
    alloc: Global,
    text: &mut String,
    program: &Program,
    findings: &[Findings],
    showing: &Showing<'_>,
) -> Result<(), AllocError>
    requires count { length findings.now ≡ length (program_of program.now) }
    requires found { (f : ℕ) (g : Function) (found : Findings) → slice_get (program_of program.now) f ≡ Some g →
        slice_get findings.now f ≡ Some found → AllCanBeTold (types_of g) found }
    requires asked { CanBeAsked showing.now.asked }
    ensures { OnOk result ((shown : Text)
        × AreParts (program_of program.now) (showing_in showing.now) (program_of program.now) findings.now shown
        × (string_bytes text.new ≡ string_bytes text.old ++ shown)) }
{
    for place in 0..findings.len() {
        let fun = &program.funs[place];
        push_asked(alloc, text, program, fun, &findings[place], showing)?;
    }
    Ok(())
}

/// Appends the text of a function, or nothing where it is not asked for.
fn push_asked(
    alloc: Global,
    text: &mut String,
    program: &Program,
    fun: &Fun,
    found: &Findings,
    showing: &Showing<'_>,
) -> Result<(), AllocError>
    requires found { AllCanBeTold (types_of (function_of fun.now)) found.now }
    requires asked { CanBeAsked showing.now.asked }
    ensures { OnOk result ((shown : Text)
        × IsPart (program_of program.now) (showing_in showing.now) (is_asked (lent showing.now.name) (function_of fun.now))
        (function_of fun.now) found.now shown
        × (string_bytes text.new ≡ string_bytes text.old ++ shown)) }
{
    if is_asked(showing.name, fun) {
        push_part(alloc, text, program, fun, found, showing)
    } else {
        Ok(())
    }
}

/// Appends the text of a function. Where it has not the sizes that are given, its bounds alone are told.
fn push_part(
    alloc: Global,
    text: &mut String,
    program: &Program,
    fun: &Fun,
    found: &Findings,
    showing: &Showing<'_>,
) -> Result<(), AllocError>
    requires found { AllCanBeTold (types_of (function_of fun.now)) found.now }
    requires asked { CanBeAsked showing.now.asked }
    ensures { OnOk result ((shown : Text)
        × IsPart (program_of program.now) (showing_in showing.now) true (function_of fun.now) found.now shown
        × (string_bytes text.new ≡ string_bytes text.old ++ shown)) }
{
    let asked = fitting(alloc, fun, showing.asked)?;
    match showing.layout {
        Layout::Lines { width } => {
            let lines = lines_of(alloc, program, fun, found, &asked)?;
            push_shown(alloc, text, &lines, width)
        }
        Layout::Objects => add_objects(alloc, text, program, fun, found, &asked),
    }
}

/// What is asked, where the function has the sizes that are given, and else nothing.
fn fitting<'a>(alloc: Global, fun: &Fun, asked: Asked<'a>) -> Result<Asked<'a>, AllocError>
    requires { CanBeAsked asked }
    ensures asked { IfOk result CanBeAsked }
    ensures fits { IfOk result (λ fitting. told fitting (parameters fun.now.params.items)
        ≡ Ok (told_or_nothing (told asked.entry (parameters fun.now.params.items)))) }
{
    match check_sizes(alloc, &asked, &fun.params) {
        Ok(()) => Ok(asked),
        Err(SizeFault::NoMemory) => Err(AllocError),
        Err(_) => Ok(Asked::Nothing),
    }
}

/// The lines of a function.
fn lines_of(
    alloc: Global,
    program: &Program,
    fun: &Fun,
    found: &Findings,
    asked: &Asked<'_>,
) -> Result<Vec<String>, AllocError>
    requires found { AllCanBeTold (types_of (function_of fun.now)) found.now }
    requires asked { CanBeAsked asked.now }
    ensures { IfOk result (λ lines. (behind : Told) × (told asked.now (parameters fun.now.params.items) ≡ Ok behind)
        × AreLines (program_of program.now) (function_of fun.now) behind found.now (texts lines.items)) }
{
    let mut lines = Vec::new(alloc);
    match push_function(alloc, &mut lines, program, fun, found, asked) {
        Ok(()) => Ok(lines),
        Err(_) => Err(AllocError),
    }
}

/// Appends the objects of a function.
fn add_objects(
    alloc: Global,
    text: &mut String,
    program: &Program,
    fun: &Fun,
    found: &Findings,
    asked: &Asked<'_>,
) -> Result<(), AllocError>
    requires found { AllCanBeTold (types_of (function_of fun.now)) found.now }
    requires asked { CanBeAsked asked.now }
    ensures { OnOk result ((behind : Told) × (told asked.now (parameters fun.now.params.items) ≡ Ok behind)
        × (added : Text) × AreObjects (program_of program.now) (function_of fun.now) behind found.now added
        × (string_bytes text.new ≡ string_bytes text.old ++ added)) }
{
    match push_objects(alloc, text, program, fun, found, asked) {
        Ok(()) => Ok(()),
        Err(_) => Err(AllocError),
    }
}

/// Appends lines, broken at the width where there is one, each with a newline behind it.
pub fn push_shown(
    alloc: Global,
    text: &mut String,
    lines: &[String],
    width: Option<u32>,
) -> Result<(), AllocError>
    ensures { OnOk result ((shown : Text) × AreShown width (texts lines.now) shown
        × (string_bytes text.new ≡ string_bytes text.old ++ shown)) }
{
    let columns = width.map(|width| width as usize);
    for line in lines {
        let broken = wrapped(alloc, line, columns, INDENT)?;
        text.push_str(&broken)?;
        text.push('\n')?;
    }
    Ok(())
}
