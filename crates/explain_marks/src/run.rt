// Runs on data.
ghost use Rattle.std.specs.Prelude.{◌≡◌, ◌<◌, ◌≤◌, true, length, IfOk, IfSome, Option};
ghost use Rattle.raml_syntax.specs.Read.{program_of};
ghost use Rattle.annot_types.specs.Certificate.{has_work};
ghost use Rattle.rules_plan.specs.Read.{program_in};
ghost use Rattle.explain_runs.specs.Measure.{CanRun};
ghost use Rattle.explain_marks.specs.Marks.{HasEnded, IsRunOf, cost_of};

use crate::reading::{Reading, read_data};
use bound_infer::Verified;
use cost_free::Meter;
use explain_runs::{Limits, Measured, Outcome, measure};
use raml_syntax::FunId;
use simple_types::Typed;
use std::alloc::{AllocError, Global};

/// How many cells a run may take.
const MOST_TAKEN: u32 = 16_777_216;

/// A run that has ended.
#[derive(Clone, Copy)]
pub(crate) struct Run {
    /// What it cost.
    pub(crate) cost: u64,
    /// How many instructions it made.
    pub(crate) steps: u64,
    /// The bound at its arguments, as it is drawn.
    pub(crate) bound: Option<u128>,
    /// How many elements the one at the place has.
    pub(crate) size: u32,
}

/// The run on the data. None where that spells no arguments of few cells, or where the run goes on after so many
/// instructions.
pub(crate) fn run_on(
    alloc: Global,
    typed: &Typed,
    verified: &Verified<'_, '_>,
    fun: FunId,
    meter: Meter,
    place: usize,
    data: &[u8],
    steps: u64,
) -> Result<Option<Run>, AllocError>
    requires source { verified.now.program.source ≡ typed.now }
    requires runs { CanRun (program_of typed.now) }
    requires fun { fun.0 < length (program_of typed.now) }
    requires work { has_work verified.now.certificate ≡ true }
    requires steps { steps ≤ 2000000 }
    ensures { IfOk result (λ run. IfSome run
        (IsRunOf (program_of typed.now) (program_in verified.now.program) verified.now.certificate fun.0 meter place data.now)) }
{
    let limits = Limits {
        steps,
        cells: MOST_TAKEN,
    };
    match read_data(alloc, typed, verified, fun, meter, place, data)? {
        Some(read) => match measure(alloc, typed, fun, data, limits)? {
            Some(measured) => Ok(ended(meter, &measured, read)),
            None => Ok(None),
        },
        None => Ok(None),
    }
}

/// The run that was measured, where it has ended.
fn ended(meter: Meter, measured: &Measured, read: Reading) -> Option<Run>
    ensures ended { IfSome result (λ run. HasEnded measured.now.outcome) }
    ensures cost { IfSome result (λ run. run.cost ≡ cost_of meter measured.now) }
    ensures bound { IfSome result (λ run. run.bound ≡ read.bound) }
    ensures size { IfSome result (λ run. run.size ≡ read.size) }
{
    let run = Run {
        cost: cost_of(meter, measured),
        steps: measured.instructions,
        bound: read.bound,
        size: read.size,
    };
    match measured.outcome {
        Outcome::Halted { .. } => Some(run),
        Outcome::TooLong => Some(run),
        Outcome::Stopped => None,
        Outcome::HeapFull => None,
    }
}

/// What a run cost on a meter; of work the instructions, since the machine does not count work.
fn cost_of(meter: Meter, measured: &Measured) -> u64
    ensures { result ≡ cost_of meter measured.now }
{
    match meter {
        Meter::Ticks => measured.ticks,
        Meter::Cells => measured.cells,
        Meter::Work => measured.instructions,
    }
}
