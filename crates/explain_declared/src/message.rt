// What is wrong, in words.
ghost use Rattle.std.specs.Prelude.{◌≡◌, ◌++◌, codes, decimal, IfOk, string_bytes};
ghost use Rattle.explain_declared.specs.Messages.{name_in, meter_in, message_of};

use crate::place::{before_mark, behind_mark};
use bound_file::LineFault;
use std::alloc::{AllocError, Global};

/// What is wrong with a line, at a degree.
pub(crate) fn message(
    alloc: Global,
    line: &str,
    fault: LineFault,
    degree: u8,
) -> Result<String, AllocError>
    ensures { IfOk result (λ text. string_bytes text ≡ message_of line.now degree fault) }
{
    match fault {
        LineFault::Shape => String::from_str(
            alloc,
            "a line has the form 'NAME METER <= BOUND', with a bound as `raml analyse` prints it",
        ),
        LineFault::Number => String::from_str(alloc, "a coefficient is 0 or more than 2^127 - 1"),
        LineFault::Unknown => unknown(alloc, name_in(line)),
        LineFault::Index => no_pattern(alloc, name_in(line), degree),
        LineFault::Twice => twice(alloc, name_in(line), meter_in(line)),
    }
}

// The first word of a line.
fn name_in<'a>(line: &'a str) -> &'a str
    ensures { result.now ≡ name_in line.now }
{
    before_mark(line, ' ')
}

// The second word of a line.
fn meter_in<'a>(line: &'a str) -> &'a str
    ensures { result.now ≡ meter_in line.now }
{
    before_mark(behind_mark(line, ' '), ' ')
}

fn unknown(alloc: Global, name: &str) -> Result<String, AllocError>
    ensures { IfOk result (λ text. string_bytes text ≡ codes "there is no function '" ++ (name.now ++ codes "'")) }
{
    format!(in alloc; "there is no function '{name}'")
}

fn no_pattern(alloc: Global, name: &str, degree: u8) -> Result<String, AllocError>
    ensures { IfOk result (λ text. string_bytes text
        ≡ codes "a pattern is none of " ++ (name.now ++ (codes "'s parameters up to degree " ++ decimal degree))) }
{
    format!(in alloc; "a pattern is none of {name}'s parameters up to degree {degree}")
}

fn twice(alloc: Global, name: &str, meter: &str) -> Result<String, AllocError>
    ensures { IfOk result (λ text. string_bytes text ≡ name.now ++ (codes " " ++ (meter.now ++ codes " is declared twice"))) }
{
    format!(in alloc; "{name} {meter} is declared twice")
}
