// The command `profile`.
ghost use Rattle.std.specs.Prelude.{◌≡◌, false, IfOk};
ghost use Rattle.clap.specs.Simple.{app_of};
ghost use Rattle.clap.specs.declared.builder.command.Command.TheViews.{out-Command as fields_of};
ghost use Rattle.explain_commands.specs.Apps.{profile_app, profile_file};

use crate::{operand, option};
use clap::Command;
use std::alloc::{AllocError, Global};

pub fn command<'a>(alloc: Global) -> Result<Command<'a>, AllocError>
    ensures app { IfOk result (λ command. app_of command ≡ profile_app) }
    ensures local { IfOk result (λ command. (fields_of command).has_globals ≡ false) }
{
    let command = of_file(alloc)?;
    let with_function = command.arg(option(
        alloc,
        "function",
        "F",
        "The function whose calls are profiled",
    ))?;
    let with_degree = with_function.arg(option(
        alloc,
        "degree",
        "D",
        "Tries degrees up to D, 1 to 4; 4 where none is told",
    ))?;
    with_degree.arg(option(
        alloc,
        "at",
        "SIZES",
        "Says how often at these sizes, as l=100,l.each=20, and puts the dearest lines first",
    ))
}

// With the file.
fn of_file<'a>(alloc: Global) -> Result<Command<'a>, AllocError>
    ensures app { IfOk result (λ command. app_of command ≡ profile_file) }
    ensures local { IfOk result (λ command. (fields_of command).has_globals ≡ false) }
{
    let command = Command::new(alloc, "profile")
        .about("Says how often each line is run at most by a call of a function, and what it costs")
        .after_help(
            "Statuses: 0 where it is done, 2 where the words or a file are faulty, 3 where no analysis can be made.",
        );
    command.arg(operand(
        alloc,
        "file",
        "FILE",
        "The source of a program, of at most 1048576 bytes",
    ))
}
