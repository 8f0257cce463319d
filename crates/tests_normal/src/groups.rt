// Groups of small programs, each given by the functions that its functions call.
use call_groups::{Groups, group_calls};
use raml_syntax::{Expr, Form, Fun, FunId, Name, Pos, Program, Ty};
use std::alloc::{AllocError, Global};
use std::fmt::Write;
use std::test::Fail;

/// A function's name, and the names that it calls.
type Calls<'a> = (&'a str, &'a [&'a str]);

fn call(callee: Name, args: Vec<Expr>) -> Expr {
    Expr {
        at: Pos(0),
        form: Form::Call(callee, args),
    }
}

fn calls(alloc: Global, names: &[&str]) -> Result<Vec<Expr>, AllocError> {
    let mut calls = Vec::new(alloc);
    for name in names {
        calls.push(call(Name::new(alloc, name)?, Vec::new(alloc)))?;
    }
    Ok(calls)
}

/// A function whose body is a call of no function, with these calls as its arguments.
fn function(alloc: Global, name: &str, callees: &[&str]) -> Result<Fun, AllocError> {
    let name = Name::new(alloc, name)?;
    let unknown = Name::new(alloc, "unknown")?;
    let args = calls(alloc, callees)?;
    Ok(Fun {
        at: Pos(0),
        name,
        params: Vec::new(alloc),
        result: Ty::Int,
        body: call(unknown, args),
    })
}

fn program(alloc: Global, functions: &[Calls]) -> Result<Program, AllocError> {
    let mut funs = Vec::new(alloc);
    for (name, callees) in functions {
        funs.push(function(alloc, name, callees)?)?;
    }
    Ok(Program { funs })
}

fn show(out: &mut String, funs: &[FunId]) -> Result<(), AllocError> {
    for fun in funs {
        write!(out, " {}", fun.0)?;
    }
    write!(out, ";")
}

fn show_groups(out: &mut String, groups: &Groups) -> Result<(), AllocError> {
    for group in groups.list() {
        show(out, group)?;
    }
    Ok(())
}

/// Adds the groups of a program, and behind a bar what each function calls.
fn push_shown(out: &mut String, alloc: Global, program: &Program) -> Result<(), Fail> {
    let count = program.funs.len();
    if count > 256 {
        return Err(Fail::from("too many functions"));
    }
    let groups = group_calls(alloc, program)?;
    show_groups(out, &groups)?;
    out.push_str(" |")?;
    for fun in 0..count {
        show(out, groups.calls(FunId(fun as u32)))?;
    }
    Ok(())
}

/// The groups of a program, and behind a bar what each function calls.
fn shown(alloc: Global, functions: &[Calls]) -> Result<String, Fail> {
    let program = program(alloc, functions)?;
    let mut out = String::new(alloc);
    push_shown(&mut out, alloc, &program)?;
    Ok(out)
}

const CASES: [(&[Calls<'static>], &str); 7] = [
    (&[], " |"),
    (
        &[("main", &["ev"]), ("ev", &["od"]), ("od", &["ev"])],
        " 1 2; 0; | 1; 2; 1;",
    ),
    (
        &[
            ("append", &["append"]),
            ("part", &["part"]),
            ("qsort", &["qsort", "append", "part"]),
        ],
        " 0; 1; 2; | 0; 1; 0 1 2;",
    ),
    (
        &[("a", &["c", "d"]), ("b", &[]), ("c", &["b"]), ("d", &["d"])],
        " 1; 2; 3; 0; | 2 3;; 1; 3;",
    ),
    (
        &[("a", &["b", "a"]), ("b", &["c"]), ("c", &["a", "none"])],
        " 0 1 2; | 0 1; 2; 0;",
    ),
    (
        &[("a", &["c", "a", "c", "b"]), ("b", &[]), ("c", &["none"])],
        " 1; 2; 0; | 0 1 2;;;",
    ),
    (
        &[("twice", &["twice", "last"]), ("twice", &[]), ("last", &[])],
        " 1; 2; 0; | 0 2;;;",
    ),
];

#[test]
fn groups_come_in_their_order(rt: HostRuntime) -> Result<(), Fail> {
    for (functions, want) in &CASES {
        let found = shown(rt.alloc(), *functions)?;
        assert_eq!(rt; found.as_str(), *want);
    }
    Ok(())
}

/// The function of this number, which calls the one of that number.
fn numbered(alloc: Global, fun: usize, callee: usize) -> Result<Fun, AllocError> {
    let name = format!(in alloc; "f{fun}")?;
    let callee = format!(in alloc; "f{callee}")?;
    function(alloc, name.as_str(), &[callee.as_str()])
}

/// Functions in a ring, each of which calls the one before it.
fn ring(alloc: Global, count: usize) -> Result<Program, AllocError> {
    let mut funs = Vec::new(alloc);
    let mut before = count;
    for fun in 1..=count {
        funs.push(numbered(alloc, fun, before)?)?;
        before = fun;
    }
    Ok(Program { funs })
}

/// Whether the functions of a program are one group.
fn is_one_group(alloc: Global, program: &Program, count: usize) -> Result<bool, Fail> {
    if program.funs.len() > 256 {
        return Err(Fail::from("too many functions"));
    }
    let groups = group_calls(alloc, program)?;
    match groups.list() {
        [group] => Ok(group.len() == count),
        _ => Ok(false),
    }
}

#[test]
fn a_ring_is_one_group(rt: HostRuntime) -> Result<(), Fail> {
    for count in [1, 128, 129, 256] {
        let program = ring(rt.alloc(), count)?;
        assert!(rt; is_one_group(rt.alloc(), &program, count)?, "of {count}");
    }
    Ok(())
}
