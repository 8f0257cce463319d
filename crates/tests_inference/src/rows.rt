//! Rows of tasks that leave 128 bits, and what a solution of a task stands for, at degree 1; weights at each degree.
use crate::programs::{budget_of, certificate, kept, typed_program};
use annot_types::{Hint, Sig};
use call_groups::group_calls;
use constraint_gen::{GenFault, plans, rows, rows_by, told_by};
use cost_free::{Meter, Task, TaskKind};
use linear_rows::{Row, System};
use rules_walk::Earlier;
use share_normal::{NormProgram, normalise};
use std::alloc::Global;
use std::fmt::Write;
use std::test::Fail;

/// Writes a row.
fn push_row(out: &mut String, row: &Row) -> Result<(), Fail> {
    for (unknown, times) in row.terms() {
        write!(out, "{times} x{unknown} ")?;
    }
    let right = row.right();
    Ok(write!(out, ">= {right}; ")?)
}

/// Writes the rows of a system.
fn push_rows(out: &mut String, system: &System) -> Result<(), Fail> {
    for row in system.rows() {
        push_row(out, row)?;
    }
    Ok(())
}

/// The rows of the task of the last block of the text, with prices times the scale, or the row that leaves.
fn rows_of(alloc: Global, source: &str, text: &str, scale: i128) -> Result<String, Fail> {
    let typed = typed_program(alloc, source)?;
    let groups = group_calls(alloc, typed.program())?;
    let program = normalise(alloc, &typed, groups)?;
    last_rows(alloc, &program, text, scale)
}

fn last_rows(
    alloc: Global,
    program: &NormProgram<'_>,
    text: &str,
    scale: i128,
) -> Result<String, Fail> {
    let certificate = certificate(alloc, text)?;
    let Some((last, before)) = certificate.blocks.split_last() else {
        return Err(Fail::new("there is no block"));
    };
    let earlier = kept(alloc, program, before)?;
    told(alloc, program, &earlier, &last.task, scale)
}

fn told(
    alloc: Global,
    program: &NormProgram<'_>,
    earlier: &Earlier,
    task: &Task,
    scale: i128,
) -> Result<String, Fail> {
    if scale < 0 || budget_of(task) > 4 {
        return Err(Fail::new("the scale or the budget"));
    }
    let mut out = String::new(alloc);
    match rows(alloc, program, 1, earlier, task, scale) {
        Ok(system) => push_rows(&mut out, &system)?,
        Err(GenFault::Leaves { row }) => write!(out, "leaves at row {row}")?,
        Err(_) => return Err(Fail::new("another fault")),
    }
    Ok(out)
}

/// The unknown 0 is what g asks of its argument, and 1 what it leaves. A tick asks for its price, and so do
/// those before it; the variable asks for what is left beside the prices.
const TWO_TICKS: &str = "fun g (x : int) : int = tick 1 in tick 2 in x";

/// The row of the first tick is at least 0, and so it is left out.
const NO_TICKS: &str = "fun g (x : int) : int = tick 0 in tick 3 in x";

/// The tasks of ticks of a program of one function.
const OF_G: &str =
    r#"{"blocks":[{"group":0,"hints":[[]],"kind":"ticks","sigs":[[[],[]]]}],"degree":1,"scale":{"cells":"1","ticks":"1"},"version":1}"#;

/// The unknowns are those of f, and 2 is how often the call takes the signature without cost of g.
const CALL: &str = "fun g (x : int) : int = tick 1 in x fun f (x : int) : int = tick 1 in g(x)";

/// g keeps 1 for 1 without cost; it pays 2^127 - 2 for its tick.
const FITS: &str =
    r#"{"blocks":[{"budget":0,"function":0,"group":0,"hints":[[]],"kind":"free","sigs":[[[[0,"1"]],[[0,"1"]]]],"target":0},{"group":0,"hints":[[]],"kind":"ticks","sigs":[[[[0,"170141183460469231731687303715884105726"]],[]]]},{"group":1,"hints":[[{"call":[]}]],"kind":"ticks","sigs":[[[],[]]]}],"degree":1,"scale":{"cells":"1","ticks":"1"},"version":1}"#;

/// It pays 2^127 - 1.
const LEAVES: &str =
    r#"{"blocks":[{"budget":0,"function":0,"group":0,"hints":[[]],"kind":"free","sigs":[[[[0,"1"]],[[0,"1"]]]],"target":0},{"group":0,"hints":[[]],"kind":"ticks","sigs":[[[[0,"170141183460469231731687303715884105727"]],[]]]},{"group":1,"hints":[[{"call":[]}]],"kind":"ticks","sigs":[[[],[]]]}],"degree":1,"scale":{"cells":"1","ticks":"1"},"version":1}"#;

/// A program, blocks of which the last one is the task's, the scale, and the rows.
const ROWS: [(&str, &str, i128, &str); 6] = [
    (
        TWO_TICKS,
        OF_G,
        1,
        "1 x0 >= 1; 1 x0 >= 3; 1 x0 -1 x1 >= 3; ",
    ),
    // three times 2^125 is below 2^127
    (
        TWO_TICKS,
        OF_G,
        42535295865117307932921825928971026432,
        "1 x0 >= 42535295865117307932921825928971026432; \
         1 x0 >= 127605887595351923798765477786913079296; \
         1 x0 -1 x1 >= 127605887595351923798765477786913079296; ",
    ),
    // three times 2^126 is above, and 2^126 is not
    (
        TWO_TICKS,
        OF_G,
        85070591730234615865843651857942052864,
        "leaves at row 1",
    ),
    (
        NO_TICKS,
        OF_G,
        85070591730234615865843651857942052864,
        "leaves at row 0",
    ),
    // f pays the tick and what g pays, and keeps what g keeps
    (
        CALL,
        FITS,
        1,
        "1 x0 >= 1; 1 x0 -1 x2 >= 170141183460469231731687303715884105727; -1 x1 1 x2 >= 0; ",
    ),
    (CALL, LEAVES, 1, "leaves at row 1"),
];

#[test]
fn rows_leave(rt: HostRuntime) -> Result<(), Fail> {
    for (source, text, scale, want) in &ROWS {
        let found = rows_of(rt.alloc(), source, text, *scale)?;
        assert!(rt; found.as_str() == *want, "{found} of {source} at {scale}");
    }
    Ok(())
}

/// Writes a hint of a call.
fn push_call(out: &mut String, hint: &Hint) -> Result<(), Fail> {
    match hint {
        Hint::Call(entries) => Ok(write!(out, " call {entries:?}")?),
        Hint::Let(_) | Hint::Share(_) => Err(Fail::new("another hint")),
    }
}

/// What 5, 3 and 2 stand for in the last task of `FITS`.
fn told_numbers(alloc: Global, program: &NormProgram<'_>) -> Result<String, Fail> {
    let certificate = certificate(alloc, FITS)?;
    let Some((last, before)) = certificate.blocks.split_last() else {
        return Err(Fail::new("there is no block"));
    };
    let earlier = kept(alloc, program, before)?;
    told_by_numbers(alloc, program, &earlier, &last.task)
}

fn told_by_numbers(
    alloc: Global,
    program: &NormProgram<'_>,
    earlier: &Earlier,
    task: &Task,
) -> Result<String, Fail> {
    if budget_of(task) > 4 {
        return Err(Fail::new("the budget"));
    }
    let Ok(plans) = plans(alloc, program, 1, None, task) else {
        return Err(Fail::new("there are no plans"));
    };
    let bodies = plans.over(alloc, earlier)?;
    let Ok(system) = rows_by(alloc, program, 1, earlier, task, 1, &bodies) else {
        return Err(Fail::new("there is no system"));
    };
    if system.unknowns() != 3 {
        return Err(Fail::new("the unknowns"));
    }
    let (sigs, hints) = told_by(alloc, &bodies, &[5, 3, 2])?;
    text_of(alloc, &sigs, &hints)
}

/// Signatures, and hints of calls.
fn text_of(alloc: Global, sigs: &[Sig], hints: &[Vec<Hint>]) -> Result<String, Fail> {
    let mut out = String::new(alloc);
    for sig in sigs {
        let (args, result) = (sig.args.entries(), sig.result.entries());
        write!(out, "{args:?} {result:?}")?;
    }
    for of_body in hints {
        for hint in of_body {
            push_call(&mut out, hint)?;
        }
    }
    Ok(out)
}

#[test]
fn numbers_stand_for_signatures_and_hints(rt: HostRuntime) -> Result<(), Fail> {
    let typed = typed_program(rt.alloc(), CALL)?;
    let groups = group_calls(rt.alloc(), typed.program())?;
    let program = normalise(rt.alloc(), &typed, groups)?;
    let found = told_numbers(rt.alloc(), &program)?;
    assert_eq!(rt; found.as_str(), "[(0, 5)] [(0, 3)] call [(0, 2)]");
    Ok(())
}

/// Writes the weights of the task of ticks of the first group.
fn push_weights(
    out: &mut String,
    alloc: Global,
    program: &NormProgram<'_>,
    d: u8,
) -> Result<(), Fail> {
    let earlier = Earlier::new(alloc, program.functions().len())?;
    let task = Task {
        group: 0,
        kind: TaskKind::With(Meter::Ticks),
    };
    if d > 4 {
        return Err(Fail::new("the degree"));
    }
    let Ok(system) = rows(alloc, program, d, &earlier, &task, 1) else {
        return Err(Fail::new("there is no system"));
    };
    for weight in system.weights() {
        write!(out, "{weight} ")?;
    }
    Ok(())
}

fn weights_of(alloc: Global, source: &str, d: u8) -> Result<String, Fail> {
    let typed = typed_program(alloc, source)?;
    let groups = group_calls(alloc, typed.program())?;
    let program = normalise(alloc, &typed, groups)?;
    let mut out = String::new(alloc);
    push_weights(&mut out, alloc, &program, d)?;
    Ok(out)
}

/// Of the arguments there is a tuple of degree 0, two of degree 1, four of degree 2, and so on; of the result one
/// of each degree.
const TWO_LISTS: &str = "fun g (x : int list, y : int list list) : int list = x";

/// Each has weights for its argument, and none for its result.
const TWO_FUNCTIONS: &str = "fun f (x : int list) : int = g(x) fun g (x : int list) : int = f(x)";

/// A program, a degree, and its weights: ten to the degree of each tuple of the arguments.
const WEIGHTS: [(&str, u8, &str); 6] = [
    (TWO_LISTS, 1, "1 10 10 0 0 "),
    (TWO_LISTS, 2, "1 10 10 100 100 100 100 0 0 0 "),
    (
        TWO_LISTS,
        3,
        "1 10 10 100 100 100 100 1000 1000 1000 1000 1000 1000 1000 1000 0 0 0 0 ",
    ),
    (
        TWO_LISTS,
        4,
        "1 10 10 100 100 100 100 1000 1000 1000 1000 1000 1000 1000 1000 \
         10000 10000 10000 10000 10000 10000 10000 10000 \
         10000 10000 10000 10000 10000 10000 10000 10000 0 0 0 0 0 ",
    ),
    (TWO_FUNCTIONS, 1, "1 10 0 1 10 0 "),
    (
        TWO_FUNCTIONS,
        4,
        "1 10 100 1000 10000 0 1 10 100 1000 10000 0 ",
    ),
];

#[test]
fn weights_are_powers_of_ten(rt: HostRuntime) -> Result<(), Fail> {
    for (source, d, want) in &WEIGHTS {
        let found = weights_of(rt.alloc(), source, *d)?;
        assert!(rt; found.as_str() == *want, "{found} of {source} at {d}");
    }
    Ok(())
}
