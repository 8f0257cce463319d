//! The commands of `explain`, as `clap` has them.
#![tactic(auto)]

ghost use Rattle.std.specs.Prelude.{◌≡◌, IfOk};
ghost use Rattle.clap.specs.Simple.{app_of};
ghost use Rattle.explain_commands.specs.Apps.{bare, begun, comparing, looking, app, IsArg};
ghost use Rattle.explain_commands.specs.Apps.{operand_rule, perhaps_rule, option_rule, needed_rule, flag_rule};

mod bounds;
mod budget;
mod check;
mod lsp;
mod plot;
mod profile;
mod verify;
mod why;

use clap::{Arg, ArgAction, Command};
use std::alloc::{AllocError, Global};

/// The version of the program.
pub const VERSION: &str = "1.1.0";

/// The program, with all its commands. Its words are those behind its name.
pub fn program<'a>(alloc: Global) -> Result<Command<'a>, AllocError>
    ensures { IfOk result (λ command. app_of command ≡ app) }
{
    let command = looking(alloc)?;
    command.subcommand(lsp::command(alloc)?)
}

// With those that look closely at a function.
fn looking<'a>(alloc: Global) -> Result<Command<'a>, AllocError>
    ensures { IfOk result (λ command. app_of command ≡ looking) }
{
    let command = comparing(alloc)?;
    let with_why = command.subcommand(why::command(alloc)?)?;
    let with_plot = with_why.subcommand(plot::command(alloc)?)?;
    with_plot.subcommand(profile::command(alloc)?)
}

// With those commands that compare what is found with a file.
fn comparing<'a>(alloc: Global) -> Result<Command<'a>, AllocError>
    ensures { IfOk result (λ command. app_of command ≡ comparing) }
{
    let command = begun(alloc)?;
    let with_budget = command.subcommand(budget::command(alloc)?)?;
    with_budget.subcommand(verify::command(alloc)?)
}

// With its first commands.
fn begun<'a>(alloc: Global) -> Result<Command<'a>, AllocError>
    ensures { IfOk result (λ command. app_of command ≡ begun) }
{
    let command = bare(alloc);
    let with_check = command.subcommand(check::command(alloc)?)?;
    with_check.subcommand(bounds::command(alloc)?)
}

fn bare<'a>(alloc: Global) -> Command<'a>
    ensures { app_of result ≡ bare }
{
    Command::new(alloc, "explain")
        .version(VERSION)
        .about("Says in words what raml says of a program, and where.")
        .no_binary_name(true)
        .subcommand_required(true)
        .arg_required_else_help(true)
}

/// An operand that must be there.
fn operand<'a>(alloc: Global, id: &'a str, name: &'a str, help: &'a str) -> Arg<'a>
    ensures { IsArg (operand_rule id.entry.now) result }
{
    Arg::new(alloc, id)
        .value_name(name)
        .help(help)
        .required(true)
}

/// An operand that may be left out.
fn perhaps<'a>(alloc: Global, id: &'a str, name: &'a str, help: &'a str) -> Arg<'a>
    ensures { IsArg (perhaps_rule id.entry.now) result }
{
    Arg::new(alloc, id).value_name(name).help(help)
}

/// An option with one value, by its long name.
fn option<'a>(alloc: Global, id: &'a str, name: &'a str, help: &'a str) -> Arg<'a>
    ensures { IsArg (option_rule id.entry.now) result }
{
    Arg::new(alloc, id).long(id).value_name(name).help(help)
}

/// An option with one value that must be there, by its long name.
fn needed<'a>(alloc: Global, id: &'a str, name: &'a str, help: &'a str) -> Arg<'a>
    ensures { IsArg (needed_rule id.entry.now) result }
{
    Arg::new(alloc, id)
        .long(id)
        .value_name(name)
        .help(help)
        .required(true)
}

/// An option that is there or not.
fn flag<'a>(alloc: Global, id: &'a str, help: &'a str) -> Arg<'a>
    ensures { IsArg (flag_rule id.entry.now) result }
{
    Arg::new(alloc, id)
        .long(id)
        .help(help)
        .action(ArgAction::SetTrue)
}
