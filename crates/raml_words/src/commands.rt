// The commands as `clap` has them.
ghost use Rattle.std.specs.Prelude.{◌≡◌, IfOk};
ghost use Rattle.clap.specs.Simple.{app_of};
ghost use Rattle.raml_words.specs.Apps.{bare, one_app, two_app, count_app, bounds_options_app, bounds_app, run_limits_app, run_options_app};
ghost use Rattle.raml_words.specs.Apps.{run_app, file_degree_app, files_degree_app, spend_files_app, spend_app};

use clap::builder::ValueParser;
use clap::{Arg, Command};
use std::alloc::{AllocError, Global};

fn bare<'a>(alloc: Global) -> Command<'a>
    ensures { app_of result ≡ bare }
{
    Command::new(alloc, "raml").disable_help_flag(true)
}

/// A command with one operand.
pub fn one_command<'a>(alloc: Global) -> Result<Command<'a>, AllocError>
    ensures { IfOk result (λ c. app_of c ≡ one_app) }
{
    let file = Arg::new(alloc, "file").required(true);
    let command = bare(alloc);
    command.arg(file)
}

/// A command with two operands.
pub fn two_command<'a>(alloc: Global) -> Result<Command<'a>, AllocError>
    ensures { IfOk result (λ c. app_of c ≡ two_app) }
{
    let command = one_command(alloc)?;
    let other = Arg::new(alloc, "other").required(true);
    command.arg(other)
}

/// A command with a number.
pub fn count_command<'a>(alloc: Global) -> Result<Command<'a>, AllocError>
    ensures { IfOk result (λ c. app_of c ≡ count_app) }
{
    let count = Arg::new(alloc, "count")
        .required(true)
        .value_parser(ValueParser::Unsigned(1, 100));
    let command = bare(alloc);
    command.arg(count)
}

fn bounds_options<'a>(alloc: Global) -> Result<Command<'a>, AllocError>
    ensures { IfOk result (λ c. app_of c ≡ bounds_options_app) }
{
    let degree = Arg::new(alloc, "degree")
        .long("degree")
        .required(true)
        .value_parser(ValueParser::Unsigned(1, 4));
    let pivot = Arg::new(alloc, "pivot").long("pivot");
    let command = bare(alloc);
    let with_degree = command.arg(degree)?;
    with_degree.arg(pivot)
}

/// A command with one operand, a degree and perhaps a rule.
pub fn bounds_command<'a>(alloc: Global) -> Result<Command<'a>, AllocError>
    ensures { IfOk result (λ c. app_of c ≡ bounds_app) }
{
    let options = bounds_options(alloc)?;
    let file = Arg::new(alloc, "file").required(true);
    options.arg(file)
}

fn run_limits<'a>(alloc: Global) -> Result<Command<'a>, AllocError>
    ensures { IfOk result (λ c. app_of c ≡ run_limits_app) }
{
    let steps = Arg::new(alloc, "steps")
        .long("steps")
        .value_parser(ValueParser::Unsigned(1, 1_000_000_000));
    let cells = Arg::new(alloc, "cells")
        .long("cells")
        .value_parser(ValueParser::Unsigned(0, 16_777_216));
    let command = bare(alloc);
    let with_steps = command.arg(steps)?;
    with_steps.arg(cells)
}

fn run_options<'a>(alloc: Global) -> Result<Command<'a>, AllocError>
    ensures { IfOk result (λ c. app_of c ≡ run_options_app) }
{
    let limits = run_limits(alloc)?;
    let degree = Arg::new(alloc, "degree")
        .long("degree")
        .value_parser(ValueParser::Unsigned(1, 4));
    limits.arg(degree)
}

/// The command `run`.
pub fn run_command<'a>(alloc: Global) -> Result<Command<'a>, AllocError>
    ensures { IfOk result (λ c. app_of c ≡ run_app) }
{
    let options = run_options(alloc)?;
    let file = Arg::new(alloc, "file").required(true);
    let with_file = options.arg(file)?;
    let name = Arg::new(alloc, "name").required(true);
    let with_name = with_file.arg(name)?;
    let input = Arg::new(alloc, "input").required(true);
    with_name.arg(input)
}

/// A command with one operand and a degree.
pub fn file_degree_command<'a>(alloc: Global) -> Result<Command<'a>, AllocError>
    ensures { IfOk result (λ c. app_of c ≡ file_degree_app) }
{
    let degree = Arg::new(alloc, "degree")
        .long("degree")
        .required(true)
        .value_parser(ValueParser::Unsigned(1, 4));
    let command = bare(alloc);
    let with_degree = command.arg(degree)?;
    let file = Arg::new(alloc, "file").required(true);
    with_degree.arg(file)
}

/// A command with two operands and a degree.
pub fn files_degree_command<'a>(alloc: Global) -> Result<Command<'a>, AllocError>
    ensures { IfOk result (λ c. app_of c ≡ files_degree_app) }
{
    let command = file_degree_command(alloc)?;
    let other = Arg::new(alloc, "other").required(true);
    command.arg(other)
}

fn spend_files<'a>(alloc: Global) -> Result<Command<'a>, AllocError>
    ensures { IfOk result (λ c. app_of c ≡ spend_files_app) }
{
    let limits = run_limits(alloc)?;
    let file = Arg::new(alloc, "file").required(true);
    let with_file = limits.arg(file)?;
    let prices = Arg::new(alloc, "prices").required(true);
    with_file.arg(prices)
}

/// The command `spend`.
pub fn spend_command<'a>(alloc: Global) -> Result<Command<'a>, AllocError>
    ensures { IfOk result (λ c. app_of c ≡ spend_app) }
{
    let files = spend_files(alloc)?;
    let name = Arg::new(alloc, "name").required(true);
    let with_name = files.arg(name)?;
    let input = Arg::new(alloc, "input").required(true);
    with_name.arg(input)
}
