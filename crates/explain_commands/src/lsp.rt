// The command `lsp`.
ghost use Rattle.std.specs.Prelude.{◌≡◌, false, IfOk};
ghost use Rattle.clap.specs.Simple.{app_of};
ghost use Rattle.clap.specs.declared.builder.command.Command.TheViews.{out-Command as fields_of};
ghost use Rattle.explain_commands.specs.Apps.{lsp_app};

use crate::option;
use clap::Command;
use std::alloc::{AllocError, Global};

pub fn command<'a>(alloc: Global) -> Result<Command<'a>, AllocError>
    ensures app { IfOk result (λ command. app_of command ≡ lsp_app) }
    ensures local { IfOk result (λ command. (fields_of command).has_globals ≡ false) }
{
    let command = Command::new(alloc, "lsp")
        .about("Serves an editor by the Language Server Protocol, on standard input and output")
        .after_help(
            "Statuses: 0 where the editor shuts the server down before it ends it, 1 where not, 2 where what it sends is no message, 12 where it can't be answered.",
        );
    let with_degree = command.arg(option(
        alloc,
        "degree",
        "D",
        "Tries the degrees up to D, 1 to 4; 4 where none is told",
    ))?;
    let with_budget = with_degree.arg(option(
        alloc,
        "budget",
        "PIVOTS",
        "Gives up the analysis of a degree that takes more pivots; 20000 where none are told",
    ))?;
    with_budget.arg(option(
        alloc,
        "log",
        "LOG",
        "Leaves what the editor sent in the file LOG, over one that is there",
    ))
}
