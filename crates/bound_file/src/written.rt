// What is written in a line, from its text.
ghost use Rattle.std.specs.Prelude.{◌≡◌, ◌<◌, ◌^◌, length, option_map, IfOk};
ghost use Rattle.std.specs.List.{list_any};
ghost use Rattle.std.specs.Str.{bytes_eq};
ghost use Rattle.bound_file.specs.Reading.{meter_read, distinct, parts_read, with_terms, line_from, line_read};
ghost use Rattle.bound_file.specs.Seen.{terms_of, tuples_of, parts_of, written_of};

use crate::cut::cut_at;
use crate::line::Line;
use crate::name::is_name;
use crate::sum::terms;
use crate::term::Term;
use cost_free::Meter;
use std::alloc::{AllocError, Global};

/// A line cut in three: its name, its meter, and its sum behind a space.
#[derive(Clone, Copy, Debug)]
pub struct Parts<'a> {
    pub name: &'a str,
    pub meter: &'a str,
    pub sum: &'a str,
}

// The parts of a line around the sign `<=`.
fn cut_parts<'a>(text: &'a str) -> Option<Parts<'a>>
    ensures { option_map parts_of result ≡ parts_read text.now }
{
    let (name, behind) = cut_at(text, ' ')?;
    let (meter, behind) = cut_at(behind, ' ')?;
    let (sign, sum) = cut_at(behind, '=')?;
    if sign == "<" {
        Some(Parts { name, meter, sum })
    } else {
        None
    }
}

fn meter(word: &str) -> Option<Meter>
    ensures { result ≡ meter_read word.now }
{
    match word {
        "ticks" => Some(Meter::Ticks),
        "cells" => Some(Meter::Cells),
        "work" => Some(Meter::Work),
        _ => None,
    }
}

// Whether the tuple is that of one of the terms.
fn is_among<'a>(tuple: &str, terms: &[Term<'a>]) -> bool
    ensures { result ≡ list_any (bytes_eq tuple.now) (tuples_of terms.now) }
{
    for term in terms {
        if tuple == term.tuple {
            return true;
        }
    }
    false
}

// Whether no tuple stands twice in the terms.
fn are_distinct<'a>(terms: &[Term<'a>]) -> bool
    ensures { result ≡ distinct (tuples_of terms.now) }
{
    let mut rest = terms;
    while let [first, more @ ..] = rest {
        if is_among(first.tuple, more) {
            return false;
        }
        rest = more;
    }
    true
}

// The line of a name and a meter, and of these terms, if no tuple stands twice in them.
fn with_terms<'a>(name: &'a str, meter: Meter, terms: Vec<Term<'a>>) -> Option<Line<'a>>
    ensures { option_map written_of result ≡ with_terms name.now meter (terms_of terms.entry.items) }
{
    if are_distinct(&terms) {
        Some(Line { name, meter, terms })
    } else {
        None
    }
}

// The line of these parts.
fn line_from<'a>(alloc: Global, parts: Parts<'a>) -> Result<Option<Line<'a>>, AllocError>
    requires { length parts.name.now < 2 ^ 31 }
    ensures { IfOk result (λ found. option_map written_of found ≡ line_from (parts_of parts.entry)) }
{
    if !is_name(alloc, parts.name)? {
        return Ok(None);
    }
    let Some(meter) = meter(parts.meter) else {
        return Ok(None);
    };
    let Some(terms) = terms(alloc, parts.sum)? else {
        return Ok(None);
    };
    Ok(with_terms(parts.name, meter, terms))
}

/// What is written in a line; `None` where it is no `NAME METER <= POLY`, or a tuple stands twice in it.
pub fn line<'a>(alloc: Global, text: &'a str) -> Result<Option<Line<'a>>, AllocError>
    requires { length text.now < 2 ^ 31 }
    ensures { IfOk result (λ found. option_map written_of found ≡ line_read text.now) }
{
    match cut_parts(text) {
        Some(parts) => line_from(alloc, parts),
        None => Ok(None),
    }
}
