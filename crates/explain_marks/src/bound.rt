// Bounds at arguments, as they are drawn.
ghost use Rattle.std.specs.Prelude.{◌≡◌, ◌<◌, true, List, None, length, IfOk, IfSome};
ghost use Rattle.raml_syntax.specs.Value.{Value};
ghost use Rattle.annot_types.specs.Certificate.{has_work};
ghost use Rattle.share_normal.specs.Program.{source_in};
ghost use Rattle.rules_plan.specs.Read.{program_in};
ghost use Rattle.value_text.specs.Stands.{StandForAll};
ghost use Rattle.poly_point.specs.Point.{AreArguments};
ghost use Rattle.analysis_report.specs.Told.{floors_of};
ghost use Rattle.explain_marks.specs.Marks.{BoundIs, IsDrawn, IsLeaving, IsUpheld};
ghost use Rattle.cost_free.specs.declared.task.Meter.TheVariants.{Work};

use analysis_report::{FloorFault, Floors, floors_at};
use bound_infer::Verified;
use cost_free::Meter;
use raml_syntax::FunId;
use std::alloc::{AllocError, Global};
use value_text::{DataHeap, Word};

/// The bound on a meter at the arguments for which the words stand, as it is drawn.
pub(crate) fn bound_at(
    alloc: Global,
    verified: &Verified<'_, '_>,
    fun: FunId,
    meter: Meter,
    heap: &DataHeap,
    args: &[Word],
) -> Result<Option<u128>, AllocError>
    requires fun { fun.0 < length (source_in verified.now.program) }
    requires work { has_work verified.now.certificate ≡ true }
    requires args { AreArguments heap.now.cells args.now }
    ensures bound { (vs : List Value) → StandForAll heap.now.cells args.now vs →
        IfOk result (BoundIs (program_in verified.now.program) verified.now.certificate fun.0 vs meter) }
    ensures upheld { (vs : List Value) → StandForAll heap.now.cells args.now vs →
        IfOk result (λ bound. IfSome bound (IsUpheld (source_in verified.now.program) fun.0 vs meter)) }
{
    match floors_at(alloc, verified, fun, heap, args) {
        Ok(floors) => Ok(drawn(meter, floor_of(floors, meter))),
        Err(fault) => none_drawn(fault),
    }
}

/// Nothing is drawn where a bound is too large.
fn none_drawn(fault: FloorFault) -> Result<Option<u128>, AllocError>
    ensures { IfOk result (λ drawn. (drawn ≡ None) × IsLeaving fault) }
{
    match fault {
        FloorFault::Leaves { .. } => Ok(None),
        FloorFault::NoMemory => Err(AllocError),
    }
}

fn floor_of(floors: Floors, meter: Meter) -> Option<u128>
    ensures { result ≡ floors_of floors meter }
{
    match meter {
        Meter::Ticks => floors.ticks,
        Meter::Cells => floors.cells,
        Meter::Work => floors.work,
    }
}

/// What is drawn of a bound: instructions against four times a bound of work, and else the bound itself.
fn drawn(meter: Meter, floor: Option<u128>) -> Option<u128>
    ensures { IsDrawn meter floor result }
{
    match meter {
        Meter::Ticks => floor,
        Meter::Cells => floor,
        Meter::Work => four_times(floor),
    }
}

fn four_times(work: Option<u128>) -> Option<u128>
    ensures { IsDrawn Work work result }
{
    match work {
        Some(work) => work.checked_mul(4),
        None => None,
    }
}
