// Data, read for the bound at the arguments that it spells.
ghost use Rattle.std.specs.Prelude.{◌≡◌, ◌<◌, ◌≤◌, ◌^◌, true, List, None, Ok, Some, length, slice_get, IfOk};
ghost use Rattle.raml_syntax.specs.Tree.{Function};
ghost use Rattle.raml_syntax.specs.Value.{Value};
ghost use Rattle.raml_syntax.specs.Types.{types_of};
ghost use Rattle.raml_syntax.specs.Read.{program_of};
ghost use Rattle.annot_types.specs.Certificate.{has_work};
ghost use Rattle.share_normal.specs.Program.{source_in};
ghost use Rattle.rules_plan.specs.Read.{program_in};
ghost use Rattle.value_text.specs.Reading.{Answers};
ghost use Rattle.value_text.specs.Stands.{StandForAll};
ghost use Rattle.poly_point.specs.Point.{AreArguments};
ghost use Rattle.explain_runs.specs.Measure.{CanRun};
ghost use Rattle.explain_marks.specs.Marks.{AreReadAs};

use crate::bound::bound_at;
use crate::elements::size_at;
use bound_infer::Verified;
use cost_free::Meter;
use explain_runs::parameter_types;
use raml_syntax::FunId;
use simple_types::Typed;
use std::alloc::{AllocError, Global};
use value_text::{DataFault, DataHeap, Word, read_args};

/// The longest data that is read, in bytes.
const MOST_DATA: u64 = 4_194_304;

/// Arguments have fewer cells.
const MOST_CELLS: u32 = 20000;

/// Arguments that were read.
#[derive(Clone, Copy)]
pub(crate) struct Reading {
    /// The bound at them, as it is drawn.
    pub(crate) bound: Option<u128>,
    /// How many elements the one at the place has.
    pub(crate) size: u32,
}

/// What is read of the data; none where it spells no arguments of the function that have few cells.
pub(crate) fn read_data(
    alloc: Global,
    typed: &Typed,
    verified: &Verified<'_, '_>,
    fun: FunId,
    meter: Meter,
    place: usize,
    data: &[u8],
) -> Result<Option<Reading>, AllocError>
    requires source { verified.now.program.source ≡ typed.now }
    requires runs { CanRun (program_of typed.now) }
    requires fun { fun.0 < length (program_of typed.now) }
    requires work { has_work verified.now.certificate ≡ true }
    ensures { (g : Function) (args : List Value) → slice_get (program_of typed.now) fun.0 ≡ Some g → Answers data.now (types_of g) (Ok args) →
        IfOk result (AreReadAs (program_of typed.now) (program_in verified.now.program) verified.now.certificate fun.0 meter place args) }
{
    if data.len() as u64 > MOST_DATA {
        return Ok(None);
    }
    let types = parameter_types(alloc, &typed.program().funs[fun.0 as usize])?;
    let mut heap = DataHeap::new(alloc);
    match read_args(alloc, data, &types, &mut heap) {
        Ok(words) => read_bound(alloc, verified, fun, meter, place, &heap, &words),
        Err(fault) => none_read(fault),
    }
}

/// Nothing is read where data is refused.
fn none_read(fault: DataFault) -> Result<Option<Reading>, AllocError>
    ensures { IfOk result (λ read. read ≡ None) }
{
    match fault {
        DataFault::NoMemory => Err(AllocError),
        DataFault::NotUtf8 { .. } => Ok(None),
        DataFault::Shape { .. } => Ok(None),
        DataFault::TooDeep { .. } => Ok(None),
        DataFault::TooManyCells => Ok(None),
    }
}

/// What is read of arguments for which the words stand.
fn read_bound(
    alloc: Global,
    verified: &Verified<'_, '_>,
    fun: FunId,
    meter: Meter,
    place: usize,
    heap: &DataHeap,
    args: &[Word],
) -> Result<Option<Reading>, AllocError>
    requires fun { fun.0 < length (source_in verified.now.program) }
    requires work { has_work verified.now.certificate ≡ true }
    requires args { AreArguments heap.now.cells args.now }
    ensures { (vs : List Value) → StandForAll heap.now.cells args.now vs →
        IfOk result (AreReadAs (source_in verified.now.program) (program_in verified.now.program) verified.now.certificate fun.0 meter place vs) }
{
    if heap.len() >= MOST_CELLS {
        return Ok(None);
    }
    let bound = bound_at(alloc, verified, fun, meter, heap, args)?;
    let size = size_at(heap, args, place);
    Ok(Some(Reading { bound, size }))
}
