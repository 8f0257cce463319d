// What a line declares.
ghost use Rattle.std.specs.Prelude.{◌<◌, ◌^◌, length, IfOk};
ghost use Rattle.raml_syntax.specs.Read.{program_of, function_of};
ghost use Rattle.bound_file.specs.Read.{ArePositive};
ghost use Rattle.bound_file.specs.Reading.{of_function, declared_by, text_read};
ghost use Rattle.bound_file.specs.Seen.{all_counted_of, written_of};
ghost use Rattle.bound_file.specs.Lined.{Comes};

use crate::counted::Counted;
use crate::declaration::DeclLine;
use crate::fault::{LineError, LineFault};
use crate::line::Line;
use crate::numbers::all_counted;
use crate::places::{bound, types_of};
use crate::written::line;
use cost_free::Meter;
use raml_syntax::{Fun, FunId, Program};
use std::alloc::Global;

// What terms declare of a function at its place.
fn of_function<'a>(
    alloc: Global,
    place: FunId,
    fun: &Fun,
    degree: u8,
    meter: Meter,
    terms: &[Counted<'a>],
) -> Result<DeclLine, LineError>
    ensures comes { Comes result (of_function degree place.0 meter (all_counted_of terms.now) (function_of fun.now)) }
    ensures positive { IfOk result (λ line. ArePositive line.bound.items) }
{
    let types = types_of(alloc, &fun.params)?;
    match bound(alloc, &types, degree, terms)? {
        Some(bound) => Ok(DeclLine {
            fun: place,
            meter,
            bound,
        }),
        None => Err(LineError::Fault(LineFault::Index)),
    }
}

// What is declared by what is written in a line.
fn of_line<'a>(
    alloc: Global,
    program: &Program,
    degree: u8,
    line: &Line<'a>,
) -> Result<DeclLine, LineError>
    requires { length (program_of program.now) < 2 ^ 31 }
    ensures comes { Comes result (declared_by (program_of program.now) degree (written_of line.now)) }
    ensures positive { IfOk result (λ line. ArePositive line.bound.items) }
{
    let Some(terms) = all_counted(alloc, &line.terms)? else {
        return Err(LineError::Fault(LineFault::Number));
    };
    let Some(place) = program.find(line.name) else {
        return Err(LineError::Fault(LineFault::Unknown));
    };
    let fun = &program.funs[place.0 as usize];
    of_function(alloc, place, fun, degree, line.meter, &terms)
}

/// What a text declares as a line.
pub fn of_text(
    alloc: Global,
    program: &Program,
    degree: u8,
    text: &str,
) -> Result<DeclLine, LineError>
    requires short { length text.now < 2 ^ 31 }
    requires few { length (program_of program.now) < 2 ^ 31 }
    ensures comes { Comes result (text_read (program_of program.now) degree text.now) }
    ensures positive { IfOk result (λ line. ArePositive line.bound.items) }
{
    match line(alloc, text)? {
        Some(line) => of_line(alloc, program, degree, &line),
        None => Err(LineError::Fault(LineFault::Shape)),
    }
}
