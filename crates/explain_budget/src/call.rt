// What `explain budget` tells of a program and a file of bounds.
ghost use Rattle.std.specs.Prelude.{◌≡◌, ◌≤◌, ◌<◌, ◌^◌, ◌++◌, length, IfOk, string_bytes};
ghost use Rattle.raml_syntax.specs.Tree.{Text};
ghost use Rattle.raml_syntax.specs.Read.{program_of};
ghost use Rattle.explain_check.specs.Stores.{store_of};
ghost use Rattle.explain_budget.specs.Calls.{words_of, first_degree, tries, BoundsAre, CallIs, IsInRange, ProgramIs};
ghost use Rattle.explain_budget.specs.Read.{asking_in};

use crate::asked::Asked;
use crate::at::tell_from;
use crate::end::BudgetEnd;
use explain_check::{MOST_BYTES, read_file, read_program};
use normal_program::normal_form;
use raml_io::Store;
use simple_types::Typed;
use std::alloc::{AllocError, Global};

/// The highest degree.
const HIGHEST: u8 = 4;

/// Tells which of the bounds that the file `bounds` declares the program of `file` keeps, with what is declared and what
/// was found: at this degree, or at the highest one that no limit refuses. Each line is appended to `text`, in words that
/// are broken at the width, or as an object of JSON; what is wrong, and which degrees a limit refuses, to the report.
pub fn tell_budget<S: Store>(
    alloc: Global,
    store: &mut S,
    file: &str,
    bounds: &str,
    degree: Option<u8>,
    width: Option<u32>,
    json: bool,
    text: &mut String,
    report: &mut String,
) -> Result<BudgetEnd, AllocError>
    requires range { IsInRange degree }
    ensures told { IfOk result (λ end. (shown part : Text)
        × CallIs (store_of (S.holds store.old) (S.faults store.old) (S.faults store.new))
        (words_of file.now bounds.now degree width json) end shown part
        × (string_bytes text.new ≡ string_bytes text.old ++ shown)
        × (string_bytes report.new ≡ string_bytes report.old ++ part)) }
    ensures kept { S.holds store.new ≡ S.holds store.old }
    ensures later { (other : Text) → S.faults store.old other ≤ S.faults store.new other }
{
    match read_program(alloc, store, file, report)? {
        Some(source) => tell_bounds(
            alloc,
            store,
            &source.typed,
            bounds,
            degree,
            width,
            json,
            text,
            report,
        ),
        None => Ok(BudgetEnd::Refused),
    }
}

// Tells which bounds of the file a typed program keeps.
fn tell_bounds<S: Store>(
    alloc: Global,
    store: &mut S,
    typed: &Typed,
    bounds: &str,
    degree: Option<u8>,
    width: Option<u32>,
    json: bool,
    text: &mut String,
    report: &mut String,
) -> Result<BudgetEnd, AllocError>
    requires range { IsInRange degree }
    ensures told { IfOk result (λ end. (shown part : Text)
        × BoundsAre (store_of (S.holds store.old) (S.faults store.old) (S.faults store.new)) (program_of typed.now) bounds.now degree
        (λ bytes. record { name = bounds.now; bytes = bytes; width = width; json = json }) end shown part
        × (string_bytes text.new ≡ string_bytes text.old ++ shown)
        × (string_bytes report.new ≡ string_bytes report.old ++ part)) }
    ensures kept { S.holds store.new ≡ S.holds store.old }
    ensures later { (other : Text) → S.faults store.old other ≤ S.faults store.new other }
{
    match read_file(alloc, store, bounds, MOST_BYTES, report)? {
        Some(bytes) => {
            let asked = Asked {
                name: bounds,
                bytes: &bytes,
                width,
                json,
            };
            tell_program(alloc, typed, &asked, degree, text, report)
        }
        None => Ok(BudgetEnd::Refused),
    }
}

// Tells what is asked of a typed program.
fn tell_program(
    alloc: Global,
    typed: &Typed,
    asked: &Asked<'_>,
    degree: Option<u8>,
    text: &mut String,
    report: &mut String,
) -> Result<BudgetEnd, AllocError>
    requires range { IsInRange degree }
    requires short { length asked.now.bytes.now < 2 ^ 31 }
    ensures { IfOk result (λ end. (shown part : Text)
        × ProgramIs (program_of typed.now) degree (asking_in asked.now) end shown part
        × (string_bytes text.new ≡ string_bytes text.old ++ shown)
        × (string_bytes report.new ≡ string_bytes report.old ++ part)) }
{
    let _program = typed.program();
    let program = normal_form(alloc, typed)?;
    let first = first_degree(degree);
    tell_from(alloc, asked, &program, first, tries(degree), text, report)
}

// The degree that is tried first: the one that is told, or the highest.
fn first_degree(degree: Option<u8>) -> u8
    requires { IsInRange degree }
    ensures is { result ≡ first_degree degree }
    ensures most { result ≤ 4 }
{
    degree.unwrap_or(HIGHEST)
}

// How many degrees are tried: the one that is told, or the highest and all lower ones.
fn tries(degree: Option<u8>) -> u8
    requires { IsInRange degree }
    ensures is { result ≡ tries degree }
    ensures most { result ≤ first_degree degree }
{
    match degree {
        Some(_) => 1,
        None => HIGHEST,
    }
}
