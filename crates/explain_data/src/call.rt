// Checks of the data for a function of a program.
ghost use Rattle.std.specs.Prelude.{◌≡◌, ◌≤◌, ◌++◌, IfOk, OnOk, map, option_map, string_bytes};
ghost use Rattle.raml_syntax.specs.Tree.{Text};
ghost use Rattle.raml_syntax.specs.Eval.{find};
ghost use Rattle.raml_syntax.specs.Read.{ty_of, program_of, function_of};
ghost use Rattle.raml_syntax.specs.Types.{types_of};
ghost use Rattle.explain_check.specs.Stores.{store_of};
ghost use Rattle.explain_data.specs.Data.{CallIs, ProgramIs, HaveSomeParameters, no_function_line};

use crate::data::check_data_file;
use crate::finding::Finding;
use explain_check::{MOST_BYTES, read_file, typed_source};
use raml_io::Store;
use raml_syntax::{Fun, Program, Ty};
use std::alloc::{AllocError, Global};
use std::fmt::Write;

/// Checks that the file `input` spells arguments of the function of this name, which stands in `file`, as a run would read
/// them. What is wrong first is appended to the report.
pub fn check_call<S: Store>(
    alloc: Global,
    store: &mut S,
    file: &str,
    name: &str,
    input: &str,
    report: &mut String,
) -> Result<Finding, AllocError>
    ensures told { IfOk result (λ finding. (part : Text)
        × CallIs (store_of (S.holds store.old) (S.faults store.old) (S.faults store.new)) file.now name.now input.now finding part
        × (string_bytes report.new ≡ string_bytes report.old ++ part)) }
    ensures kept { S.holds store.new ≡ S.holds store.old }
    ensures later { (other : Text) → S.faults store.old other ≤ S.faults store.new other }
{
    let Some(source) = read_file(alloc, store, file, MOST_BYTES, report)? else {
        return Ok(Finding::Refused);
    };
    let Some(typed) = typed_source(alloc, file, &source, report)? else {
        return Ok(Finding::Untyped);
    };
    check_in_program(alloc, store, typed.program(), file, name, input, report)
}

/// Checks that the file `input` spells arguments of the function of this name in the program of `file`.
fn check_in_program<S: Store>(
    alloc: Global,
    store: &mut S,
    program: &Program,
    file: &str,
    name: &str,
    input: &str,
    report: &mut String,
) -> Result<Finding, AllocError>
    requires parameters { HaveSomeParameters (program_of program.now) }
    ensures told { IfOk result (λ finding. (part : Text)
        × ProgramIs (store_of (S.holds store.old) (S.faults store.old) (S.faults store.new)) (program_of program.now)
        file.now name.now input.now finding part
        × (string_bytes report.new ≡ string_bytes report.old ++ part)) }
    ensures kept { S.holds store.new ≡ S.holds store.old }
    ensures later { (other : Text) → S.faults store.old other ≤ S.faults store.new other }
{
    match function_named(program, name) {
        Some(function) => {
            let types = parameter_types(alloc, function)?;
            check_data_file(alloc, store, input, &types, report)
        }
        None => {
            push_no_function(file, name, report)?;
            Ok(Finding::Refused)
        }
    }
}

/// The first function of this name.
pub fn function_named<'a>(program: &'a Program, name: &str) -> Option<&'a Fun>
    ensures { option_map (λ function. function_of function.now) result ≡ find name.now (program_of program.now) }
{
    for function in &program.funs {
        if function.name.text() == name {
            return Some(function);
        }
    }
    None
}

/// The types of a function's parameters.
fn parameter_types(alloc: Global, function: &Fun) -> Result<Vec<Ty>, AllocError>
    ensures { IfOk result (λ types. map ty_of types.items ≡ types_of (function_of function.now)) }
{
    let mut types = Vec::new(alloc);
    for param in &function.params {
        types.push(param.ty.copy(alloc)?)?;
    }
    Ok(types)
}

/// Appends that the program of this file has no function of this name.
pub fn push_no_function(file: &str, name: &str, report: &mut String) -> Result<(), AllocError>
    ensures { OnOk result (string_bytes report.new ≡ string_bytes report.old ++ no_function_line file.now name.now) }
{
    write!(report, "{file}: error: no function is named {name}\n")
}
