// The texts of tasks.
ghost use Rattle.std.specs.Prelude.{◌≡◌, ◌++◌, OnOk, IfOk, string_bytes};
ghost use Rattle.raml_syntax.specs.Read.{program_of};
ghost use Rattle.cost_free.specs.Blocked.{row};
ghost use Rattle.cost_free.specs.Read.{kind_of, task_of, ids_of, lists_of};
ghost use Rattle.refusal_text.specs.Tasks.{head, first_name, free_text, kind_text, task_text, what_text, too_large_line};

use constraint_gen::What;
use cost_free::{Task, TaskKind};
use itoa::Buffer;
use raml_syntax::{FunId, Program};
use report_text::{meter_name, name_at};
use std::alloc::{AllocError, Global};

/// Whose analysis a line tells of.
#[derive(Clone, Copy, Debug, PartialEq, Eq)]
pub enum Analysed {
    /// That of the program.
    Program,
    /// That of a program to compare with.
    Other,
}

impl Analysed {
    /// How such a line begins.
    pub fn head(self) -> &'static str
        ensures { result.now ≡ head self }
    {
        match self {
            Analysed::Program => "raml: ",
            Analysed::Other => "raml: other: ",
        }
    }
}

/// The line of a task that exceeds a limit. The groups are those of the program.
pub fn too_large_line(
    alloc: Global,
    whose: Analysed,
    program: &Program,
    groups: &[Vec<FunId>],
    task: &Task,
    what: What,
) -> Result<String, AllocError>
    ensures { IfOk result (λ line. string_bytes line
        ≡ too_large_line whose (program_of program.now) (lists_of groups.now) (task_of task.now) what) }
{
    let mut line = String::from_str(alloc, whose.head())?;
    line.push_str("too large: ")?;
    push_task(&mut line, program, groups, task)?;
    line.push_str(": ")?;
    line.push_str(word(what))?;
    line.push_str("\n")?;
    Ok(line)
}

// The word for what there is too much of.
fn word(what: What) -> &'static str
    ensures { result.now ≡ what_text what }
{
    match what {
        What::Indices => "indices",
        What::Unknowns => "unknowns",
        What::Rows => "rows",
    }
}

/// Appends the text of a task.
pub fn push_task(
    line: &mut String,
    program: &Program,
    groups: &[Vec<FunId>],
    task: &Task,
) -> Result<(), AllocError>
    ensures { OnOk result (string_bytes line.new ≡ string_bytes line.old
        ++ task_text (program_of program.now) (lists_of groups.now) (task_of task.now)) }
{
    let name = first_name(program, group(groups, task.group));
    push_kind(line, program, name, task.kind)
}

// The functions of a group; none where there is no such group.
fn group(groups: &[Vec<FunId>], group: u32) -> &[FunId]
    ensures { ids_of result.now ≡ row (lists_of groups.now) group }
{
    match groups.get(group as usize) {
        Some(functions) => functions,
        None => &[],
    }
}

// The name of the first of the functions.
fn first_name<'p>(program: &'p Program, functions: &[FunId]) -> &'p str
    ensures { result.now ≡ first_name (program_of program.now) (ids_of functions.now) }
{
    match functions {
        [] => "",
        [fun, ..] => name_at(program, *fun),
    }
}

// Appends what is looked for. With cost, the name is that of the group's first function.
fn push_kind(
    line: &mut String,
    program: &Program,
    name: &str,
    kind: TaskKind,
) -> Result<(), AllocError>
    ensures { OnOk result (string_bytes line.new ≡ string_bytes line.old ++ kind_text (program_of program.now) name.now (kind_of kind)) }
{
    match kind {
        TaskKind::Free {
            budget,
            fun,
            target,
        } => push_free(line, name_at(program, fun), budget, target),
        TaskKind::With(meter) => {
            line.push_str(name)?;
            line.push_str(" ")?;
            line.push_str(meter_name(meter))
        }
    }
}

// Appends a task without cost, by its function's name, its budget and the number of its target.
fn push_free(line: &mut String, name: &str, budget: u8, target: u32) -> Result<(), AllocError>
    ensures { OnOk result (string_bytes line.new ≡ string_bytes line.old ++ free_text name.now budget target) }
{
    line.push_str(name)?;
    line.push_str(" free budget ")?;
    line.push_str(Buffer::new().format(budget))?;
    line.push_str(" target ")?;
    line.push_str(Buffer::new().format(target))
}
