// What is read, printed again.
ghost use Rattle.std.specs.Prelude.{List, map};
ghost use Rattle.raml_syntax.specs.Read.{ty_of};
ghost use Rattle.raml_syntax.specs.Value.{Value, HaveTypes};
ghost use Rattle.value_text.specs.Stands.{StandForAll};
ghost use Rattle.value_text.specs.Printing.{StandsForSome};

use crate::types::types_of;
use raml_syntax::Ty;
use std::alloc::Global;
use std::fmt::Write;
use std::process::Abort;
use std::test::Fail;
use value_text::{DataHeap, PrintFault, Word, print, read_args};

fn push_printed(
    out: &mut String,
    alloc: Global,
    heap: &DataHeap,
    word: Word,
    ty: &Ty,
) -> Result<(), Fail>
    requires { StandsForSome heap.now.cells word (ty_of ty.now) }
{
    match print(alloc, heap, word, ty) {
        Ok(text) => Ok(out.push_str(&text)?),
        Err(PrintFault::TooLong) => Ok(out.push_str("too long")?),
        Err(PrintFault::NoMemory) => Err(Fail::from("no memory")),
    }
}

fn push_first(
    out: &mut String,
    alloc: Global,
    heap: &DataHeap,
    words: &[Word],
    types: &[Ty],
) -> Result<(), Fail>
    requires { (vs : List Value) × StandForAll heap.now.cells words.now vs × HaveTypes vs (map ty_of types.now) }
{
    match words {
        [word, ..] => match types {
            [ty, ..] => push_printed(out, alloc, heap, *word, ty),
            [] => Err(Fail::from("there is no type")),
        },
        [] => Err(Fail::from("there is no word")),
    }
}

fn push_second(
    out: &mut String,
    alloc: Global,
    heap: &DataHeap,
    words: &[Word],
    types: &[Ty],
) -> Result<(), Fail>
    requires { (vs : List Value) × StandForAll heap.now.cells words.now vs × HaveTypes vs (map ty_of types.now) }
{
    match words {
        [_, word] => match types {
            [_, ty] => push_printed(out, alloc, heap, *word, ty),
            _ => Err(Fail::from("not two types")),
        },
        _ => Err(Fail::from("not two words")),
    }
}

// Adds the text of the first argument, and of both where there are two.
fn push_all(
    out: &mut String,
    alloc: Global,
    heap: &DataHeap,
    words: &[Word],
    types: &[Ty],
) -> Result<(), Fail>
    requires { (vs : List Value) × StandForAll heap.now.cells words.now vs × HaveTypes vs (map ty_of types.now) }
{
    push_first(out, alloc, heap, words, types)?;
    if types.len() == 2 {
        out.push_str("; ")?;
        push_second(out, alloc, heap, words, types)?;
    }
    Ok(())
}

// Adds what is read of the data, or the fault.
fn push_shown(out: &mut String, alloc: Global, types: &[Ty], data: &[u8]) -> Result<(), Fail> {
    if types.is_empty() || types.len() > 8 || data.len() > 20000000 {
        return Err(Fail::from("there are no types, or too many"));
    }
    let mut heap = DataHeap::new(alloc);
    match read_args(alloc, data, types, &mut heap) {
        Err(fault) => Ok(write!(out, "{fault:?}")?),
        Ok(words) => push_all(out, alloc, &heap, &words, types),
    }
}

/// The text of the first argument that data spells, of both where there are two, or the fault.
pub fn shown(alloc: Global, types: &[Ty], data: &[u8]) -> Result<String, Fail> {
    let mut out = String::new(alloc);
    push_shown(&mut out, alloc, types, data)?;
    Ok(out)
}

/// The same, of types by words.
pub fn shown_of(alloc: Global, words: &str, data: &str) -> Result<String, Fail> {
    let types = types_of(alloc, words)?;
    shown(alloc, &types, data.as_bytes())
}

// Compares what is shown with what is wanted. The line is types by words, `: `, data, ` => ` and this.
fn compare_line(rt: &impl Abort, alloc: Global, line: &str) -> Result<(), Fail> {
    let (types, rest) = line.split_once(": ").ok_or("no types")?;
    let (data, want) = rest.split_once(" => ").ok_or("nothing is wanted")?;
    let found = shown_of(alloc, types, data)?;
    assert_eq!(rt; found.as_str(), want, "at {line}");
    Ok(())
}

/// Compares each line of a table.
pub fn compare_lines(rt: &impl Abort, alloc: Global, table: &str) -> Result<(), Fail> {
    for line in table.lines() {
        compare_line(rt, alloc, line)?;
    }
    Ok(())
}
