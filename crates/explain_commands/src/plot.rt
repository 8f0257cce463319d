// The command `plot`.
ghost use Rattle.std.specs.Prelude.{◌≡◌, false, IfOk};
ghost use Rattle.clap.specs.Simple.{app_of};
ghost use Rattle.clap.specs.declared.builder.command.Command.TheViews.{out-Command as fields_of};
ghost use Rattle.explain_commands.specs.Apps.{plot_app, plot_chosen, plot_given, plot_made, plot_run, given_rule, IsArg};

use crate::{flag, needed, operand, option};
use clap::{Arg, Command};
use std::alloc::{AllocError, Global};

pub fn command<'a>(alloc: Global) -> Result<Command<'a>, AllocError>
    ensures app { IfOk result (λ command. app_of command ≡ plot_app) }
    ensures local { IfOk result (λ command. (fields_of command).has_globals ≡ false) }
{
    let command = chosen(alloc)?;
    let with_output = command.arg(needed(
        alloc,
        "output",
        "FILE.svg",
        "Writes the picture to this file",
    )
    .short('o'))?;
    with_output.arg(flag(
        alloc,
        "force",
        "Writes over the file of -o where there is one",
    ))
}

// With what is chosen of bounds.
fn chosen<'a>(alloc: Global) -> Result<Command<'a>, AllocError>
    ensures app { IfOk result (λ command. app_of command ≡ plot_chosen) }
    ensures local { IfOk result (λ command. (fields_of command).has_globals ≡ false) }
{
    let command = given(alloc)?;
    let with_degree = command.arg(option(
        alloc,
        "degree",
        "D",
        "Tries the degrees up to D, 1 to 4; 4 where none is told",
    ))?;
    with_degree.arg(option(
        alloc,
        "meter",
        "METER",
        "What is measured: ticks, cells or work; work where none is told",
    ))
}

// With arguments that are given, and the parameter that is drawn along.
fn given<'a>(alloc: Global) -> Result<Command<'a>, AllocError>
    ensures app { IfOk result (λ command. app_of command ≡ plot_given) }
    ensures local { IfOk result (λ command. (fields_of command).has_globals ≡ false) }
{
    let command = made(alloc)?;
    let with_data = command.arg(data(alloc))?;
    with_data.arg(option(
        alloc,
        "of",
        "PARAMETER",
        "The parameter whose size grows, the others have 8; with --data the one whose size is drawn, else the first that has one",
    ))
}

fn data<'a>(alloc: Global) -> Arg<'a>
    ensures { IsArg given_rule result }
{
    Arg::new(alloc, "data")
        .long("data")
        .value_name("DATA")
        .help("In place of --sizes: files of arguments, each of at most 4194304 bytes")
        .num_args(1..)
}

// With arguments that are made.
fn made<'a>(alloc: Global) -> Result<Command<'a>, AllocError>
    ensures app { IfOk result (λ command. app_of command ≡ plot_made) }
    ensures local { IfOk result (λ command. (fields_of command).has_globals ≡ false) }
{
    let command = run(alloc)?;
    let with_sizes = command.arg(option(
        alloc,
        "sizes",
        "SIZES",
        "How many elements the lists and trees of arguments have, as 1,2,4,8",
    ))?;
    with_sizes.arg(option(
        alloc,
        "seed",
        "N",
        "What random arguments are made from, a number below 2^64; 1 where none is told",
    ))
}

// With what is run.
fn run<'a>(alloc: Global) -> Result<Command<'a>, AllocError>
    ensures app { IfOk result (λ command. app_of command ≡ plot_run) }
    ensures local { IfOk result (λ command. (fields_of command).has_globals ≡ false) }
{
    let command = Command::new(alloc, "plot")
        .about("Draws what runs of a function cost, and the bound above them")
        .after_help(
            "Statuses: 0 where it is done, 2 where the words or a file are faulty or the picture can't be written, 3 where the analysis can't be made.",
        );
    let with_file = command.arg(operand(
        alloc,
        "file",
        "FILE",
        "The source of a program, of at most 1048576 bytes",
    ))?;
    with_file.arg(operand(alloc, "name", "NAME", "The function that is run"))
}
