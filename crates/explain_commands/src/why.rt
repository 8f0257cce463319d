// The command `why`.
ghost use Rattle.std.specs.Prelude.{◌≡◌, false, IfOk};
ghost use Rattle.clap.specs.Simple.{app_of};
ghost use Rattle.clap.specs.declared.builder.command.Command.TheViews.{out-Command as fields_of};
ghost use Rattle.explain_commands.specs.Apps.{why_app, why_chosen, why_file};

use crate::{flag, operand, option};
use clap::Command;
use std::alloc::{AllocError, Global};

pub fn command<'a>(alloc: Global) -> Result<Command<'a>, AllocError>
    ensures app { IfOk result (λ command. app_of command ≡ why_app) }
    ensures local { IfOk result (λ command. (fields_of command).has_globals ≡ false) }
{
    let command = chosen(alloc)?;
    let with_write = command.arg(option(
        alloc,
        "write",
        "OTHER",
        "Writes the source with the first change that gives bounds to the file OTHER",
    ))?;
    with_write.arg(flag(
        alloc,
        "force",
        "Writes over the file of --write where there is one",
    ))
}

// With what is asked about.
fn chosen<'a>(alloc: Global) -> Result<Command<'a>, AllocError>
    ensures app { IfOk result (λ command. app_of command ≡ why_chosen) }
    ensures local { IfOk result (λ command. (fields_of command).has_globals ≡ false) }
{
    let command = of_file(alloc)?;
    let with_degree = command.arg(option(
        alloc,
        "degree",
        "D",
        "The degree of the bounds that are wanted, 1 to 4; 4 where none is told",
    ))?;
    let with_function = with_degree.arg(option(
        alloc,
        "function",
        "F",
        "Says why the function F has no bound, and those for which it waits",
    ))?;
    with_function.arg(option(
        alloc,
        "meter",
        "METER",
        "Says why there is no bound of ticks, cells or work alone",
    ))
}

// With the file.
fn of_file<'a>(alloc: Global) -> Result<Command<'a>, AllocError>
    ensures app { IfOk result (λ command. app_of command ≡ why_file) }
    ensures local { IfOk result (λ command. (fields_of command).has_globals ≡ false) }
{
    let command = Command::new(alloc, "why")
        .about("Says why functions have no bound, and which changes give them one")
        .after_help(
            "Statuses: 0 where it is done, 2 where the words or a file are faulty or no change can be written, 3 where the analysis can't be made.",
        );
    command.arg(operand(
        alloc,
        "file",
        "FILE",
        "The source of a program, of at most 1048576 bytes",
    ))
}
