// The command `budget`.
ghost use Rattle.std.specs.Prelude.{◌≡◌, false, IfOk};
ghost use Rattle.clap.specs.Simple.{app_of};
ghost use Rattle.clap.specs.declared.builder.command.Command.TheViews.{out-Command as fields_of};
ghost use Rattle.explain_commands.specs.Apps.{budget_app, budget_files};

use crate::{flag, operand, option, perhaps};
use clap::Command;
use std::alloc::{AllocError, Global};

pub fn command<'a>(alloc: Global) -> Result<Command<'a>, AllocError>
    ensures app { IfOk result (λ command. app_of command ≡ budget_app) }
    ensures local { IfOk result (λ command. (fields_of command).has_globals ≡ false) }
{
    let command = of_files(alloc)?;
    let with_degree = command.arg(option(
        alloc,
        "degree",
        "D",
        "The degree of the bounds, 1 to 4; where none is told 4, or the highest that no limit refuses",
    ))?;
    let with_json = with_degree.arg(flag(alloc, "json", "Prints an object of JSON a line"))?;
    with_json.arg(flag(
        alloc,
        "force",
        "Writes over the file of --write where there is one",
    ))
}

// With the files.
fn of_files<'a>(alloc: Global) -> Result<Command<'a>, AllocError>
    ensures app { IfOk result (λ command. app_of command ≡ budget_files) }
    ensures local { IfOk result (λ command. (fields_of command).has_globals ≡ false) }
{
    let command = Command::new(alloc, "budget")
        .about(
            "Says which of the declared bounds of a program are kept, and what exceeds the others",
        )
        .after_help(
            "Statuses: 0 where each line is kept or the file is written, 1 where a line is not kept or has no bound, 2 where the words or a file are faulty, 3 where the analysis can't be made.",
        );
    let with_file = command.arg(operand(
        alloc,
        "file",
        "FILE",
        "The source of a program, of at most 1048576 bytes",
    ))?;
    let with_bounds = with_file.arg(perhaps(
        alloc,
        "bounds",
        "BOUNDS",
        "The file of the declared bounds",
    ))?;
    with_bounds.arg(option(
        alloc,
        "write",
        "BOUNDS",
        "Writes the bounds that are found to the file BOUNDS, to begin with",
    ))
}
