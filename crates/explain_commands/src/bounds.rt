// The command `bounds`.
ghost use Rattle.std.specs.Prelude.{◌≡◌, false, IfOk};
ghost use Rattle.clap.specs.Simple.{app_of};
ghost use Rattle.clap.specs.declared.builder.command.Command.TheViews.{out-Command as fields_of};
ghost use Rattle.explain_commands.specs.Apps.{bounds_app, bounds_chosen, bounds_sized};

use crate::{flag, operand, option};
use clap::Command;
use std::alloc::{AllocError, Global};

pub fn command<'a>(alloc: Global) -> Result<Command<'a>, AllocError>
    ensures app { IfOk result (λ command. app_of command ≡ bounds_app) }
    ensures local { IfOk result (λ command. (fields_of command).has_globals ≡ false) }
{
    let command = sized(alloc)?;
    let with_width = command.arg(option(
        alloc,
        "width",
        "N",
        "Wraps lines at N columns, 20 to 99999",
    ))?;
    with_width.arg(flag(alloc, "json", "Prints an object of JSON a line"))
}

// With what is asked at sizes.
fn sized<'a>(alloc: Global) -> Result<Command<'a>, AllocError>
    ensures app { IfOk result (λ command. app_of command ≡ bounds_sized) }
    ensures local { IfOk result (λ command. (fields_of command).has_globals ≡ false) }
{
    let command = chosen(alloc)?;
    let with_at = command.arg(option(
        alloc,
        "at",
        "SIZES",
        "Tells the bounds at these sizes, as l=100,l.each=20",
    ))?;
    with_at.arg(option(
        alloc,
        "within",
        "METER=N",
        "Tells the greatest size, of the one that --at leaves open, at which the bound is at most N of ticks, cells or work",
    ))
}

// With which bounds are asked for.
fn chosen<'a>(alloc: Global) -> Result<Command<'a>, AllocError>
    ensures app { IfOk result (λ command. app_of command ≡ bounds_chosen) }
    ensures local { IfOk result (λ command. (fields_of command).has_globals ≡ false) }
{
    let command = Command::new(alloc, "bounds")
        .about(
            "Says of each function and meter the bound of the least degree, as algebra over the parameters' sizes",
        )
        .after_help(
            "Statuses: 0 where it is done, also where a function has no bound, 2 where the words or a file are faulty, 3 where the analysis can't be made.",
        );
    let with_file = command.arg(operand(
        alloc,
        "file",
        "FILE",
        "The source of a program, of at most 1048576 bytes",
    ))?;
    let with_degree = with_file.arg(option(
        alloc,
        "degree",
        "D",
        "The greatest degree to try, 1 to 4; 4 where none is told",
    ))?;
    with_degree.arg(option(
        alloc,
        "function",
        "F",
        "Tells the bounds of the function F alone",
    ))
}
