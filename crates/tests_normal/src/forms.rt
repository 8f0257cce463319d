// The normal forms of programs.
use crate::shown::Shown;
use crate::{more_programs as more, programs as first};
use call_groups::group_calls;
use raml_parse::parse;
use raml_syntax::FunId;
use share_normal::normalise;
use simple_types::{Typed, check};
use std::alloc::Global;
use std::process::Abort;
use std::test::Fail;

/// The typed program that a text spells.
fn typed_program(alloc: Global, source: &str) -> Result<Typed, Fail> {
    if source.len() > 2000 {
        return Err(Fail::from("the source is long"));
    }
    let Ok(program) = parse(alloc, source.as_bytes()) else {
        return Err(Fail::from("it is no program"));
    };
    match check(alloc, program) {
        Ok(typed) => Ok(typed),
        Err(_) => Err(Fail::from("it is not typed")),
    }
}

/// Adds the normal forms of a program's functions, one a line.
fn push_forms(shown: &mut Shown, alloc: Global, typed: &Typed) -> Result<(), Fail> {
    let groups = group_calls(alloc, typed.program())?;
    let made = normalise(alloc, typed, groups)?;
    let funs = made.functions();
    for place in 0..funs.len() {
        let name = typed.program().funs[place].name.text();
        shown.function(name, funs.fun(FunId(place as u32)))?;
    }
    Ok(())
}

/// The normal forms of a program's functions, one a line.
fn forms(alloc: Global, source: &str) -> Result<Shown, Fail> {
    let typed = typed_program(alloc, source)?;
    let mut shown = Shown::new(alloc);
    push_forms(&mut shown, alloc, &typed)?;
    Ok(shown)
}

/// Compares the normal forms of each program.
fn compare(rt: &impl Abort, alloc: Global, programs: &[(&str, &str)]) -> Result<(), Fail> {
    for (source, want) in programs {
        let found = forms(alloc, source)?;
        assert_eq!(rt; found.text(), *want);
    }
    Ok(())
}

const SMALL: [(&str, &str); 3] = [
    (
        "fun f (x : int, y : int) : int = x + x",
        "f [v0, v1]: Drop(v1, Share(v0, v2, v3, Arith(Add, v2, v3)#4))\n",
    ),
    (
        "fun append (x : int list, y : int list) : int list = match x with nil -> y | h :: t -> h :: append(t, y)",
        "append [v0, v1]: CaseList(v0, Var v1#1, v2, v3, Let(v4, Call 0[v3, v1]#3, Cons(v2, v4))#2)#3\n",
    ),
    (
        "fun k (x : int, y : int, z : int, w : int) : int = x fun f (x : int, y : int) : int = k(x, y, (x : int), y)",
        "k [v0, v1, v2, v3]: Drop(v1, Drop(v2, Drop(v3, Var v0#2)))\n\
         f [v0, v1]: Share(v0, v2, v3, Share(v1, v4, v5, Call 0[v2, v4, v3, v5]#6))\n",
    ),
];

#[test]
fn small_programs_have_their_forms(rt: HostRuntime) -> Result<(), Fail> {
    compare(&rt, rt.alloc(), &SMALL)
}

const PROGRAMS: [(&str, &str); 15] = [
    first::ACKERMANN,
    first::APPEND,
    first::BINARY_COUNTER,
    first::CARTESIAN,
    first::CHAIN,
    first::COMMON_SUBSEQUENCE,
    first::DICTIONARY_OPTION,
    first::EVERY_NTH,
    first::FIBONACCI,
    first::FILTERS,
    first::FLATTEN_ORDERS,
    first::GROUP_BY,
    first::HORNER,
    first::INSERTION_SORT,
    first::MATRIX_PRODUCT,
];

#[test]
fn programs_have_their_forms(rt: HostRuntime) -> Result<(), Fail> {
    compare(&rt, rt.alloc(), &PROGRAMS)
}

const MORE_PROGRAMS: [(&str, &str); 16] = [
    more::MERGE_SORT,
    more::PID_CONTROLLER,
    more::PING_PONG,
    more::QUICKSORT,
    more::REVERSE,
    more::RUN_LENGTH,
    more::SAFE_HEAD_OPTION,
    more::SEARCH_TREE,
    more::SELECTION_SORT,
    more::SHADOWING,
    more::SHARING,
    more::SPIN_LOOPS,
    more::TOKEN_LEDGER,
    more::TRIPLES,
    more::TWO_LIST_QUEUE,
    more::ZIP_UNZIP,
];

#[test]
fn more_programs_have_their_forms(rt: HostRuntime) -> Result<(), Fail> {
    compare(&rt, rt.alloc(), &MORE_PROGRAMS)
}
