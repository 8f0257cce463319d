// What `budget` asks for.
ghost use Rattle.std.specs.Prelude.{◌≡◌, Some, None, IfOk, IfErr, option_map};
ghost use Rattle.clap.specs.Walk.{rows_of};
ghost use Rattle.clap.specs.Matches.{found_of};
ghost use Rattle.explain_words.specs.Spelled.{lent, degree_in};
ghost use Rattle.explain_words.specs.Commands.{MeansBudget, Tells, aim_of, aim_in, optional, plain_aim, right};
ghost use Rattle.explain_words.specs.Asking.{RefusesAll};

use super::{Request, WordsFault};
use crate::given::{is_set, text_of};
use crate::mistake::Mistake;
use crate::number::degree_in;
use clap::ArgMatches;
use std::alloc::Global;

/// What is done with a file of bounds.
#[derive(Clone, Copy)]
enum Aim<'a> {
    /// It is said which of its bounds are kept.
    Keep { bounds: &'a str, json: bool },
    /// It is written.
    Write { bounds: &'a str, force: bool },
}

/// What `budget` asks for with what is found for its arguments.
pub fn asked<'a>(alloc: Global, found: &ArgMatches<'a>) -> Result<Request<'a>, WordsFault>
    ensures ok { IfOk result (MeansBudget (rows_of (found_of found.now))) }
    ensures err { IfErr result (RefusesAll (MeansBudget (rows_of (found_of found.now)))) }
{
    match request_of(found) {
        Ok(request) => Ok(request),
        Err(mistake) => Err(mistake.told(alloc)),
    }
}

fn request_of<'a>(found: &ArgMatches<'a>) -> Result<Request<'a>, Mistake>
    ensures { Tells (MeansBudget (rows_of (found_of found.now))) result }
{
    let file = text_of(found, "file").ok_or(Mistake::NoFile)?;
    let degree = degree(text_of(found, "degree"))?;
    match aim_in(found)? {
        Aim::Keep { bounds, json } => Ok(Request::Budget {
            file,
            bounds,
            degree,
            json,
        }),
        Aim::Write { bounds, force } => Ok(Request::WriteBudget {
            file,
            bounds,
            degree,
            force,
        }),
    }
}

// The degree, where it is given.
fn degree(word: Option<&str>) -> Result<Option<u8>, Mistake>
    ensures { right result ≡ optional degree_in (lent word.entry) }
{
    match word {
        Some(word) => match degree_in(word) {
            Some(degree) => Ok(Some(degree)),
            None => Err(Mistake::Degree),
        },
        None => Ok(None),
    }
}

// What is done with which file of bounds.
fn aim_in<'a>(found: &ArgMatches<'a>) -> Result<Aim<'a>, Mistake>
    ensures { option_map plain_aim (right result) ≡ aim_in (rows_of (found_of found.now)) }
{
    let operand = text_of(found, "bounds");
    let json = is_set(found, "json");
    let force = is_set(found, "force");
    match text_of(found, "write") {
        Some(bounds) => written(operand, bounds, json, force),
        None => kept(operand, json, force),
    }
}

// The operand is the file whose bounds are kept or not.
fn kept<'a>(operand: Option<&'a str>, json: bool, force: bool) -> Result<Aim<'a>, Mistake>
    ensures { option_map plain_aim (right result) ≡ aim_of (lent operand.entry) None json force }
{
    match operand {
        Some(_) if force => Err(Mistake::Force),
        Some(bounds) => Ok(Aim::Keep { bounds, json }),
        None => Err(Mistake::NoBounds),
    }
}

// This file is to be written.
fn written<'a>(
    operand: Option<&'a str>,
    bounds: &'a str,
    json: bool,
    force: bool,
) -> Result<Aim<'a>, Mistake>
    ensures { option_map plain_aim (right result) ≡ aim_of (lent operand.entry) (Some bounds.entry.now) json force }
{
    match operand {
        Some(_) => Err(Mistake::TwoBounds),
        None if json => Err(Mistake::Json),
        None => Ok(Aim::Write { bounds, force }),
    }
}
