// Names of functions and of meters.
ghost use Rattle.std.specs.Prelude.{◌≡◌};
ghost use Rattle.raml_syntax.specs.Read.{program_of};
ghost use Rattle.report_text.specs.Names.{name_at, meter_text};

use cost_free::Meter;
use raml_syntax::{FunId, Program};

/// The name of the function at this place; empty where there is none.
pub fn name_at(program: &Program, fun: FunId) -> &str
    ensures { result.now ≡ name_at (program_of program.now) fun.0 }
{
    match program.funs.get(fun.0 as usize) {
        Some(fun) => fun.name.text(),
        None => "",
    }
}

/// The name of a meter.
pub fn meter_name(meter: Meter) -> &'static str
    ensures { result.now ≡ meter_text meter }
{
    match meter {
        Meter::Ticks => "ticks",
        Meter::Cells => "cells",
        Meter::Work => "work",
    }
}
