// The bounds of a run.
ghost use Rattle.std.specs.Prelude.{◌≡◌, ◌++◌, OnOk, string_bytes};
ghost use Rattle.report_text.specs.RunBounds.{floor_text, run_bound_line, run_bound_lines};

use crate::names::meter_name;
use cost_free::Meter;
use itoa::Buffer;
use std::alloc::AllocError;

/// Appends the bounds at the data, rounded down, of ticks, cells and work; `None` where there is no
/// bound.
pub fn push_run_bounds(
    text: &mut String,
    ticks: Option<u128>,
    cells: Option<u128>,
    work: Option<u128>,
) -> Result<(), AllocError>
    ensures { OnOk result (string_bytes text.new ≡ string_bytes text.old ++ run_bound_lines ticks cells work) }
{
    push_run_bound(text, Meter::Ticks, ticks)?;
    push_run_bound(text, Meter::Cells, cells)?;
    push_run_bound(text, Meter::Work, work)
}

fn push_run_bound(text: &mut String, meter: Meter, floor: Option<u128>) -> Result<(), AllocError>
    ensures { OnOk result (string_bytes text.new ≡ string_bytes text.old ++ run_bound_line meter floor) }
{
    text.push_str(meter_name(meter))?;
    text.push_str(" bound ")?;
    push_floor(text, floor)?;
    text.push_str("\n")
}

fn push_floor(text: &mut String, floor: Option<u128>) -> Result<(), AllocError>
    ensures { OnOk result (string_bytes text.new ≡ string_bytes text.old ++ floor_text floor) }
{
    match floor {
        Some(floor) => text.push_str(Buffer::new().format(floor)),
        None => text.push_str("none"),
    }
}
