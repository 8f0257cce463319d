// The lines of places where a number leaves 128 bits, each once: few of them can be reached by a call.
use cost_free::{Meter, Task, TaskKind};
use raml_parse::parse;
use raml_syntax::{FunId, Program};
use refusal_text::{
    Analysed, check_line, least_line, refute_line, rescale_line, row_line, scale_line, solve_line,
};
use std::alloc::Global;
use std::test::Fail;

const SOURCE: &[u8] = b"fun f (x : int) : int = x fun g (x : int) : int = f(x)";

// The task of the second function on ticks.
const TASK: Task = Task {
    group: 1,
    kind: TaskKind::With(Meter::Ticks),
};

// A program of two functions, each a group of its own.
#[derive(Drop)]
struct Setting {
    program: Program,
    groups: Vec<Vec<FunId>>,
}

fn two_functions(alloc: Global) -> Result<Setting, Fail> {
    let Ok(program) = parse(alloc, SOURCE) else {
        return Err(Fail::from("no program"));
    };
    let mut groups = Vec::new(alloc);
    groups.push(vec![in alloc; FunId(0)]?)?;
    groups.push(vec![in alloc; FunId(1)]?)?;
    Ok(Setting { program, groups })
}

#[test]
fn rows_and_entries_are_told(rt: HostRuntime) -> Result<(), Fail> {
    let alloc = rt.alloc();
    let two = two_functions(alloc)?;
    let own = Analysed::Program;
    let line = solve_line(alloc, own, &two.program, &two.groups, &TASK, 3, 5, 7)?;
    assert_eq!(rt;
        line.as_str(),
        "raml: overflow: solve g ticks pivots 3 row 5 column 7\n"
    );
    let line = row_line(alloc, own, &two.program, &two.groups, &TASK, 4)?;
    assert_eq!(rt; line.as_str(), "raml: overflow: row g ticks row 4\n");
    let line = scale_line(alloc, own, &two.program, &two.groups, &TASK, 6)?;
    assert_eq!(rt; line.as_str(), "raml: overflow: scale g ticks entry 6\n");
    let line = rescale_line(alloc, own, &two.program, &two.groups, &TASK, 2)?;
    assert_eq!(rt; line.as_str(), "raml: overflow: rescale g ticks block 2\n");
    Ok(())
}

#[test]
fn columns_are_told(rt: HostRuntime) -> Result<(), Fail> {
    let alloc = rt.alloc();
    let two = two_functions(alloc)?;
    let other = Analysed::Other;
    let line = refute_line(alloc, other, &two.program, &two.groups, &TASK, 8)?;
    assert_eq!(rt;
        line.as_str(),
        "raml: other: overflow: refute g ticks column 8\n"
    );
    let line = least_line(alloc, other, &two.program, &two.groups, &TASK, 9)?;
    assert_eq!(rt;
        line.as_str(),
        "raml: other: overflow: least g ticks column 9\n"
    );
    Ok(())
}

#[test]
fn conditions_are_told(rt: HostRuntime) -> Result<(), Fail> {
    let line = check_line(rt.alloc(), Analysed::Program, 2, &[1, 0], 4)?;
    assert_eq!(rt;
        line.as_str(),
        "raml: overflow: check block 2 at 1.0 index 4\n"
    );
    Ok(())
}
