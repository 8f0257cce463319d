//! Runs of schedules that were worked out by hand.
use base_poly::IndexFault;
use call_groups::{Groups, group_calls};
use cost_free::{Done, Meter, Schedule, Task, TaskKind, blocked, next};
use raml_syntax::{Expr, Form, Fun, Name, Pos, Program, Ty};
use std::alloc::{AllocError, Global};
use std::fmt::Write;
use std::process::Abort;
use std::test::Fail;
use tests_support::types::{context, last_type};

fn call(callee: Name, args: Vec<Expr>) -> Expr {
    Expr {
        at: Pos(0),
        form: Form::Call(callee, args),
    }
}

// A function that calls these functions; a word is a name.
fn function(alloc: Global, name: &str, callees: &str) -> Result<Fun, AllocError> {
    let mut args = Vec::new(alloc);
    for callee in callees.split_whitespace() {
        args.push(call(Name::new(alloc, callee)?, Vec::new(alloc)))?;
    }
    Ok(Fun {
        at: Pos(0),
        name: Name::new(alloc, name)?,
        params: Vec::new(alloc),
        result: Ty::Int,
        body: call(Name::new(alloc, "unknown")?, args),
    })
}

// The groups of a program whose functions have the names f, g and h, and call these functions.
fn groups(alloc: Global, calls: &[&str]) -> Result<Groups, Fail> {
    let mut funs = Vec::new(alloc);
    for (place, callees) in calls.iter().enumerate() {
        let name = match place {
            0 => "f",
            1 => "g",
            _ => "h",
        };
        funs.push(function(alloc, name, callees)?)?;
    }
    let program = Program { funs };
    let count = program.funs.len();
    if count > 256 {
        return Err(Fail::from("too many functions"));
    }
    Ok(group_calls(alloc, &program)?)
}

fn show(out: &mut String, task: &Task) -> Result<(), AllocError> {
    match task.kind {
        TaskKind::Free {
            budget,
            fun,
            target,
        } => write!(out, " {budget}:{}.{target}", fun.0),
        TaskKind::With(Meter::Ticks) => write!(out, " ticks{}", task.group),
        TaskKind::With(Meter::Cells) => write!(out, " cells{}", task.group),
        TaskKind::With(Meter::Work) => write!(out, " work{}", task.group),
    }
}

// How a task came out, by its letter.
fn outcome(letter: u8) -> Done {
    match letter {
        b's' => Done::Solved,
        b'r' => Done::Refuted,
        _ => Done::Calls,
    }
}

// The tasks that come, where they come out as the letters say, and of each the function that it waits
// for.
fn tasks_that_come(
    rt: &impl Abort,
    alloc: Global,
    results: &[Ty],
    groups: &Groups,
    degree: u8,
    work: bool,
    letters: &str,
) -> Result<String, Fail> {
    let mut out = String::new(alloc);
    let mut schedule = Schedule::new(alloc, results, groups, degree, work);
    for &letter in letters.as_bytes() {
        let current = schedule.current()?;
        assert_eq!(rt;
            next(alloc, results, groups, degree, work, schedule.done())?,
            current
        );
        match current {
            None => out.push_str(" end")?,
            Some(task) => {
                show(&mut out, &task)?;
                if let Some(fun) = blocked(groups, &task, schedule.done()) {
                    write!(out, "?{}", fun.0)?;
                }
            }
        }
        schedule.record(outcome(letter))?;
    }
    Ok(out)
}

struct Run {
    calls: &'static [&'static str],
    results: &'static str,
    degree: u8,
    work: bool,
    outcomes: &'static str,
    tasks: &'static str,
}

const RUNS: [Run; 6] = [
    Run {
        calls: &[""],
        results: "int list",
        degree: 1,
        work: true,
        outcomes: "ssssss",
        tasks: " 0:0.0 1:0.1 ticks0 cells0 work0 end",
    },
    // a target is tried again where it was refuted
    Run {
        calls: &[""],
        results: "int list",
        degree: 1,
        work: false,
        outcomes: "rssrss",
        tasks: " 0:0.0 1:0.0 1:0.1 ticks0 cells0 end",
    },
    Run {
        calls: &[""],
        results: "int list int list pair",
        degree: 1,
        work: false,
        outcomes: "sssssss",
        tasks: " 0:0.0 1:0.1 1:0.2 1:0.3 ticks0 cells0 end",
    },
    Run {
        calls: &[""],
        results: "int list list",
        degree: 2,
        work: false,
        outcomes: "sssrsss",
        tasks: " 0:0.0 1:0.1 2:0.2 2:0.3 ticks0 cells0 end",
    },
    // two functions of one group
    Run {
        calls: &["g", "f"],
        results: "int list int",
        degree: 1,
        work: false,
        outcomes: "srsssss",
        tasks: " 0:0.0 0:1.0 1:0.1 1:1.0 ticks0 cells0 end",
    },
    // the second group waits for a function of the first
    Run {
        calls: &["g", "g"],
        results: "int int",
        degree: 1,
        work: false,
        outcomes: "srsscss",
        tasks: " 0:1.0 ticks0 cells0 0:0.0 ticks1?1 cells1 end",
    },
];

#[test]
fn schedules_go_on_as_reckoned(rt: HostRuntime) -> Result<(), Fail> {
    let alloc = rt.alloc();
    for case in &RUNS {
        let results = context(alloc, case.results)?;
        let groups = groups(alloc, case.calls)?;
        let tasks = tasks_that_come(
            &rt,
            alloc,
            &results,
            &groups,
            case.degree,
            case.work,
            case.outcomes,
        )?;
        assert_eq!(rt; tasks.as_str(), case.tasks);
    }
    Ok(())
}

// A result with too many indices is refused where its group begins.
#[test]
fn large_groups_are_refused(rt: HostRuntime) -> Result<(), Fail> {
    let alloc = rt.alloc();
    let mut large = last_type(alloc, "int list")?;
    for _ in 0..23 {
        let list = Box::new(alloc, last_type(alloc, "int list")?)?;
        large = Ty::Pair(list, Box::new(alloc, large)?);
    }
    let results = vec![in alloc; large, Ty::Int]?;
    let groups = groups(alloc, &["g", ""])?;
    let mut schedule = Schedule::new(alloc, &results, &groups, 4, false);
    for _ in 0..3 {
        assert!(rt; schedule.current()?.is_some());
        schedule.record(Done::Solved)?;
    }
    match schedule.current() {
        Ok(_) => assert!(rt; false),
        Err(fault) => assert_eq!(rt; fault, IndexFault::TooMany),
    }
    let many = Some(IndexFault::TooMany);
    assert!(rt; schedule.record(Done::Solved).err() == many);
    assert_eq!(rt; schedule.done().len(), 3);
    let next = next(alloc, &results, &groups, 4, false, schedule.done());
    assert!(rt; next.err() == many);
    Ok(())
}
