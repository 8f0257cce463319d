// The lines of places where a number leaves 128 bits.
ghost use Rattle.std.specs.Prelude.{◌≡◌, ◌++◌, decimal, OnOk, IfOk, string_bytes};
ghost use Rattle.raml_syntax.specs.Read.{program_of};
ghost use Rattle.cost_free.specs.Read.{task_of, lists_of};
ghost use Rattle.refusal_text.specs.Places as p;
ghost use Rattle.refusal_text.specs.Places.{steps_text, path_text, condition_text};

use crate::task::{Analysed, push_task};
use cost_free::{Meter, Task};
use itoa::Buffer;
use raml_syntax::{FunId, Program};
use report_text::{meter_name, name_at};
use std::alloc::{AllocError, Global};

/// In solving the system of a task: after so many pivots, in this row and column of the tableau. The
/// groups are those of the program, here and below.
pub fn solve_line(
    alloc: Global,
    whose: Analysed,
    program: &Program,
    groups: &[Vec<FunId>],
    task: &Task,
    pivots: usize,
    row: u32,
    column: u32,
) -> Result<String, AllocError>
    ensures { IfOk result (λ line. string_bytes line
        ≡ p.solve_line whose (program_of program.now) (lists_of groups.now) (task_of task.now) pivots row column) }
{
    let mut line = String::from_str(alloc, whose.head())?;
    line.push_str("overflow: solve ")?;
    push_task(&mut line, program, groups, task)?;
    push_counted(&mut line, " pivots ", pivots)?;
    push_counted(&mut line, " row ", row as usize)?;
    push_counted(&mut line, " column ", column as usize)?;
    line.push_str("\n")?;
    Ok(line)
}

/// In this row of the task's system.
pub fn row_line(
    alloc: Global,
    whose: Analysed,
    program: &Program,
    groups: &[Vec<FunId>],
    task: &Task,
    row: u32,
) -> Result<String, AllocError>
    ensures { IfOk result (λ line. string_bytes line
        ≡ p.row_line whose (program_of program.now) (lists_of groups.now) (task_of task.now) row) }
{
    place_line(
        alloc,
        whose,
        program,
        groups,
        "row",
        task,
        "row",
        row as usize,
    )
}

/// In this entry of the task's answer, taken to whole numbers.
pub fn scale_line(
    alloc: Global,
    whose: Analysed,
    program: &Program,
    groups: &[Vec<FunId>],
    task: &Task,
    entry: u32,
) -> Result<String, AllocError>
    ensures { IfOk result (λ line. string_bytes line
        ≡ p.scale_line whose (program_of program.now) (lists_of groups.now) (task_of task.now) entry) }
{
    place_line(
        alloc,
        whose,
        program,
        groups,
        "scale",
        task,
        "entry",
        entry as usize,
    )
}

/// In this earlier block, multiplied by the denominator of the task's solution.
pub fn rescale_line(
    alloc: Global,
    whose: Analysed,
    program: &Program,
    groups: &[Vec<FunId>],
    task: &Task,
    block: usize,
) -> Result<String, AllocError>
    ensures { IfOk result (λ line. string_bytes line
        ≡ p.rescale_line whose (program_of program.now) (lists_of groups.now) (task_of task.now) block) }
{
    place_line(
        alloc, whose, program, groups, "rescale", task, "block", block,
    )
}

/// In the check of the vector that refutes the task, at this column.
pub fn refute_line(
    alloc: Global,
    whose: Analysed,
    program: &Program,
    groups: &[Vec<FunId>],
    task: &Task,
    column: u32,
) -> Result<String, AllocError>
    ensures { IfOk result (λ line. string_bytes line
        ≡ p.refute_line whose (program_of program.now) (lists_of groups.now) (task_of task.now) column) }
{
    place_line(
        alloc,
        whose,
        program,
        groups,
        "refute",
        task,
        "column",
        column as usize,
    )
}

/// In the check that the task's solution is least, at this column.
pub fn least_line(
    alloc: Global,
    whose: Analysed,
    program: &Program,
    groups: &[Vec<FunId>],
    task: &Task,
    column: u32,
) -> Result<String, AllocError>
    ensures { IfOk result (λ line. string_bytes line
        ≡ p.least_line whose (program_of program.now) (lists_of groups.now) (task_of task.now) column) }
{
    place_line(
        alloc,
        whose,
        program,
        groups,
        "least",
        task,
        "column",
        column as usize,
    )
}

// What is done for the task, and the place there: a word and a number.
fn place_line(
    alloc: Global,
    whose: Analysed,
    program: &Program,
    groups: &[Vec<FunId>],
    deed: &str,
    task: &Task,
    place: &str,
    number: usize,
) -> Result<String, AllocError>
    ensures { IfOk result (λ line. string_bytes line
        ≡ p.place_line whose (program_of program.now) (lists_of groups.now) deed.now (task_of task.now) place.now number) }
{
    let mut line = String::from_str(alloc, whose.head())?;
    line.push_str("overflow: ")?;
    line.push_str(deed)?;
    line.push_str(" ")?;
    push_task(&mut line, program, groups, task)?;
    line.push_str(" ")?;
    line.push_str(place)?;
    push_counted(&mut line, " ", number)?;
    line.push_str("\n")?;
    Ok(line)
}

/// In the check of a certificate: in the condition of this index at the path in the block.
pub fn check_line(
    alloc: Global,
    whose: Analysed,
    block: usize,
    path: &[u32],
    index: usize,
) -> Result<String, AllocError>
    ensures { IfOk result (λ line. string_bytes line ≡ p.check_line whose block path.now index) }
{
    let mut line = String::from_str(alloc, whose.head())?;
    push_counted(&mut line, "overflow: check block ", block)?;
    line.push_str(" at ")?;
    push_condition(&mut line, path, index)?;
    line.push_str("\n")?;
    Ok(line)
}

/// At the data, in the bound of a meter.
pub fn point_line(alloc: Global, meter: Meter) -> Result<String, AllocError>
    ensures { IfOk result (λ line. string_bytes line ≡ p.point_line meter) }
{
    let mut line = String::from_str(alloc, "raml: overflow: point ")?;
    line.push_str(meter_name(meter))?;
    line.push_str("\n")?;
    Ok(line)
}

/// In the power form of the function's bound of a meter.
pub fn powers_line(
    alloc: Global,
    program: &Program,
    fun: FunId,
    meter: Meter,
) -> Result<String, AllocError>
    ensures { IfOk result (λ line. string_bytes line ≡ p.powers_line (program_of program.now) fun.0 meter) }
{
    let mut line = String::from_str(alloc, "raml: overflow: powers ")?;
    line.push_str(name_at(program, fun))?;
    line.push_str(" ")?;
    line.push_str(meter_name(meter))?;
    line.push_str("\n")?;
    Ok(line)
}

/// Appends the condition of this index at the path.
pub fn push_condition(line: &mut String, path: &[u32], index: usize) -> Result<(), AllocError>
    ensures { OnOk result (string_bytes line.new ≡ string_bytes line.old ++ condition_text path.now index) }
{
    push_path(line, path)?;
    push_counted(line, " index ", index)
}

// Appends the numbers of a path.
fn push_path(line: &mut String, path: &[u32]) -> Result<(), AllocError>
    ensures { OnOk result (string_bytes line.new ≡ string_bytes line.old ++ path_text path.now) }
{
    let [step, steps @ ..] = path else {
        return Ok(());
    };
    line.push_str(Buffer::new().format(*step))?;
    push_steps(line, steps)
}

// Appends the numbers, with a point before each.
fn push_steps(line: &mut String, steps: &[u32]) -> Result<(), AllocError>
    ensures { OnOk result (string_bytes line.new ≡ string_bytes line.old ++ steps_text steps.now) }
{
    for step in steps {
        line.push_str(".")?;
        line.push_str(Buffer::new().format(*step))?;
    }
    Ok(())
}

/// Appends a text and a number.
pub fn push_counted(line: &mut String, text: &str, number: usize) -> Result<(), AllocError>
    ensures { OnOk result (string_bytes line.new ≡ string_bytes line.old ++ text.now ++ decimal number) }
{
    line.push_str(text)?;
    line.push_str(Buffer::new().format(number))
}
