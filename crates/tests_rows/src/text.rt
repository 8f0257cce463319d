// The rows of a task as text.
use cost_free::{Meter, Task, TaskKind};
use linear_rows::{Row, System};
use raml_syntax::FunId;
use rules_plan::Body;
use rules_walk::Ask;
use share_normal::NormProgram;
use std::alloc::{AllocError, Global};
use std::fmt::Write;

/// The title of a task, the parts of its unknowns, and its rows, whose right sides are divided by `raised`.
pub fn push_task(
    alloc: Global,
    out: &mut String,
    program: &NormProgram<'_>,
    task: &Task,
    bodies: &[Body<'_>],
    system: &System,
    raised: u128,
) -> Result<(), AllocError> {
    push_title(out, program, task)?;
    push_parts(alloc, out, bodies)?;
    push_rows(out, system, raised)
}

fn push_title(out: &mut String, program: &NormProgram<'_>, task: &Task) -> Result<(), AllocError> {
    match task.kind {
        TaskKind::Free {
            budget,
            fun,
            target,
        } => {
            let name = name(program, fun);
            write!(out, "rows of {name} free budget {budget} target {target}: ")
        }
        TaskKind::With(meter) => {
            let name = first_name(program, task.group);
            let meter = meter_word(meter);
            write!(out, "rows of {name} {meter}: ")
        }
    }
}

fn meter_word(meter: Meter) -> &'static str {
    match meter {
        Meter::Ticks => "ticks",
        Meter::Cells => "cells",
        Meter::Work => "work",
    }
}

fn name<'a>(program: &'a NormProgram<'_>, fun: FunId) -> &'a str {
    match program.source().funs.get(fun.0 as usize) {
        Some(fun) => fun.name.text(),
        None => "",
    }
}

// The name of the first function of a group.
fn first_name<'a>(program: &'a NormProgram<'_>, group: u32) -> &'a str {
    match members(program, group).first() {
        Some(fun) => name(program, *fun),
        None => "",
    }
}

/// The functions of a group; none where there is no such group.
pub fn members<'a>(program: &'a NormProgram<'_>, group: u32) -> &'a [FunId] {
    match program.groups().list().get(group as usize) {
        Some(functions) => functions,
        None => &[],
    }
}

// What the unknowns stand for, in their order: the signatures of all bodies, and then the hints of each, with
// the place of the body.
fn push_parts(alloc: Global, out: &mut String, bodies: &[Body<'_>]) -> Result<(), AllocError> {
    out.push_str("parts [")?;
    push_sigs(out, bodies)?;
    for place in 0..bodies.len() {
        push_asks(out, place, &bodies[place].asked(alloc)?)?;
    }
    out.push_str("]\n")?;
    Ok(())
}

fn push_sigs(out: &mut String, bodies: &[Body<'_>]) -> Result<(), AllocError> {
    let mut comma = "";
    for body in bodies {
        let (args, result) = (body.args, body.result);
        write!(out, "{comma}Sig({args}), Sig({result})")?;
        comma = ", ";
    }
    Ok(())
}

fn push_asks(out: &mut String, place: usize, asks: &[Ask]) -> Result<(), AllocError> {
    for ask in asks {
        match ask {
            Ask::Results(sizes) => {
                let sizes = sizes.as_slice();
                write!(out, ", Let({place}, {sizes:?})")?
            }
            Ask::Copies(size) => write!(out, ", Share({place}, {size})")?,
            Ask::Multiples(blocks) => {
                let blocks = blocks.as_slice();
                write!(out, ", Call({place}, {blocks:?})")?
            }
        }
    }
    Ok(())
}

fn push_rows(out: &mut String, system: &System, raised: u128) -> Result<(), AllocError> {
    let mut number: usize = 0;
    for row in system.rows() {
        write!(out, "  {number}: ")?;
        push_row(out, row, raised)?;
        number = number.wrapping_add(1);
    }
    Ok(())
}

fn push_row(out: &mut String, row: &Row, raised: u128) -> Result<(), AllocError> {
    let mut plus = "";
    for (unknown, times) in row.terms() {
        write!(out, "{plus}{times} x{unknown}")?;
        plus = " + ";
    }
    let sign = if row.right() < 0 { "-" } else { "" };
    let right = row.right().unsigned_abs() / raised.max(1);
    writeln!(out, " >= {sign}{right}")
}
