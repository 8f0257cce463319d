// The command `check`.
ghost use Rattle.std.specs.Prelude.{◌≡◌, false, IfOk};
ghost use Rattle.clap.specs.Simple.{app_of};
ghost use Rattle.clap.specs.declared.builder.command.Command.TheViews.{out-Command as fields_of};
ghost use Rattle.explain_commands.specs.Apps.{check_app, files_rule, data_rule, IsArg};

use clap::{Arg, ArgAction, Command};
use std::alloc::{AllocError, Global};

pub fn command<'a>(alloc: Global) -> Result<Command<'a>, AllocError>
    ensures app { IfOk result (λ command. app_of command ≡ check_app) }
    ensures local { IfOk result (λ command. (fields_of command).has_globals ≡ false) }
{
    let command = Command::new(alloc, "check")
        .about(
            "Says of each source what is wrong first, with line and column, and nothing where all are typed",
        )
        .after_help(
            "Statuses: 0 where nothing is wrong, 1 where a source is not typed, 2 where a file can't be read or data is faulty.",
        );
    let with_files = command.arg(files(alloc))?;
    with_files.arg(data(alloc))
}

fn files<'a>(alloc: Global) -> Arg<'a>
    ensures { IsArg files_rule result }
{
    Arg::new(alloc, "file")
        .value_name("FILE")
        .help("A source of a program, of at most 1048576 bytes")
        .action(ArgAction::Append)
        .num_args(1..)
        .required(true)
}

fn data<'a>(alloc: Global) -> Arg<'a>
    ensures { IsArg data_rule result }
{
    Arg::new(alloc, "data")
        .long("data")
        .value_names(&["NAME", "DATA"])
        .help("Says what is wrong with the file DATA as arguments of the function NAME of one FILE")
        .num_args(2)
}
