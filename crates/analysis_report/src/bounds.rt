// Bounds of a call at its arguments.
ghost use Rattle.std.specs.Prelude.{◌≡◌, ◌<◌, true, List, length, IfOk, IfErr};
ghost use Rattle.std.specs.List.{Contains};
ghost use Rattle.raml_syntax.specs.Value.{Value};
ghost use Rattle.cost_free.specs.Schedule.{meters};
ghost use Rattle.share_normal.specs.Program.{source_in};
ghost use Rattle.annot_types.specs.Certificate.{has_work};
ghost use Rattle.rules_plan.specs.Read.{program_in};
ghost use Rattle.value_text.specs.Stands.{StandForAll};
ghost use Rattle.poly_point.specs.Point.{AreArguments};
ghost use Rattle.analysis_report.specs.Floors.{IsFloor};
ghost use Rattle.analysis_report.specs.Told.{floors_of, FloorsAre, FloorRefused, FloorsRefused, IsBound, AllHold};

use crate::laws::never_asks;
use bound_infer::{Line, Verified};
use cost_free::Meter;
use poly_point::{PointFault, at};
use raml_syntax::FunId;
use std::alloc::{AllocError, Global};
use value_text::{DataHeap, Word};

/// The bounds of a call at its arguments, rounded down; none where there is no bound.
#[derive(Clone, Copy, Debug, PartialEq, Eq)]
pub struct Floors {
    pub ticks: Option<u128>,
    pub cells: Option<u128>,
    pub work: Option<u128>,
}

/// Why they are not worked out.
#[derive(Clone, Copy, Debug, PartialEq, Eq)]
pub enum FloorFault {
    /// The total of the bound on this meter does not fit 128 bits.
    Leaves { meter: Meter },
    NoMemory,
}

impl From<AllocError> for FloorFault {
    ghost use Rattle.std.specs.Prelude.{◌≡◌};
    ghost use Rattle.analysis_report.specs.declared.bounds.FloorFault.TheVariants.{NoMemory};

    ghost from_gives = { λ _ fault. fault ≡ NoMemory };

    fn from(_: AllocError) -> FloorFault {
        FloorFault::NoMemory
    }
}

// The bound on a meter at the arguments.
fn floor_at(
    alloc: Global,
    verified: &Verified<'_, '_>,
    fun: FunId,
    meter: Meter,
    heap: &DataHeap,
    args: &[Word],
) -> Result<Option<u128>, FloorFault>
    requires fun { fun.0 < length (source_in verified.now.program) }
    requires meter { Contains (meters (has_work verified.now.certificate)) meter }
    requires args { AreArguments heap.now.cells args.now }
    ensures ok { (vs : List Value) → StandForAll heap.now.cells args.now vs →
        IfOk result (IsFloor (program_in verified.now.program) verified.now.certificate fun.0 vs meter) }
    ensures err { (vs : List Value) → StandForAll heap.now.cells args.now vs →
        IfErr result (FloorRefused (program_in verified.now.program) verified.now.certificate fun.0 vs meter) }
    ensures bound { (vs : List Value) → StandForAll heap.now.cells args.now vs →
        IfOk result (IsBound (source_in verified.now.program) fun.0 vs meter) }
{
    let _certificate = verified.certificate();
    match verified.line(alloc, fun, meter)? {
        Line::Bound(poly) => match at(alloc, &poly, heap, args) {
            Ok(point) => Ok(Some(point.floor)),
            Err(PointFault::Leaves) => Err(FloorFault::Leaves { meter }),
            Err(PointFault::NoMemory) => Err(FloorFault::NoMemory),
        },
        Line::NoBound => Ok(None),
        Line::Calls(_) => Ok(None),
    }
}

/// The bounds of a function at the arguments that the words stand for: of ticks, of cells and of work. The
/// certificate counts all three.
pub fn floors_at(
    alloc: Global,
    verified: &Verified<'_, '_>,
    fun: FunId,
    heap: &DataHeap,
    args: &[Word],
) -> Result<Floors, FloorFault>
    requires fun { fun.0 < length (source_in verified.now.program) }
    requires work { has_work verified.now.certificate ≡ true }
    requires args { AreArguments heap.now.cells args.now }
    ensures ok { (vs : List Value) → StandForAll heap.now.cells args.now vs →
        IfOk result (λ floors. FloorsAre (program_in verified.now.program) verified.now.certificate fun.0 vs (floors_of floors)) }
    ensures err { (vs : List Value) → StandForAll heap.now.cells args.now vs →
        IfErr result (FloorsRefused (program_in verified.now.program) verified.now.certificate fun.0 vs) }
    ensures hold { (vs : List Value) → StandForAll heap.now.cells args.now vs →
        IfOk result (λ floors. AllHold (source_in verified.now.program) fun.0 vs (floors_of floors)) }
{
    never_asks();
    let ticks = floor_at(alloc, verified, fun, Meter::Ticks, heap, args)?;
    let cells = floor_at(alloc, verified, fun, Meter::Cells, heap, args)?;
    let work = floor_at(alloc, verified, fun, Meter::Work, heap, args)?;
    Ok(Floors { ticks, cells, work })
}
