// Commands that run a function.
ghost use Rattle.std.specs.Prelude.{◌≡◌, ◌≤◌, ◌++◌, ℕ, List, [], None, true, IfOk, IfErr};
ghost use Rattle.raml_syntax.specs.Tree.{Text};
ghost use Rattle.raml_syntax.specs.Value.{Value};
ghost use Rattle.raml_syntax.specs.Node.{program_nodes};
ghost use Rattle.raml_syntax.specs.Read.{program_of};
ghost use Rattle.rules_plan.specs.Read.{program_in};
ghost use Rattle.share_normal.specs.Program.{source_in};
ghost use Rattle.analysis_report.specs.Told.{floors_of};
ghost use Rattle.refusals.specs.Refusals.{IsWanting};
ghost use Rattle.raml_promise.specs.Outside.{Sound, store_of};
ghost use Rattle.raml_words.specs.declared.request.Rule.TheVariants as rule;
ghost use Rattle.annot_types.specs.Certificate.{has_work};
ghost use Rattle.report_text.specs.RunBounds.{run_bound_lines};
ghost use Rattle.raml_promise.specs.Analysis.{OfCourse};
ghost use Rattle.raml_promise.specs.Call.{Placed, OfFloors, Runs, cells_or, floor_cells};
ghost use Rattle.raml_promise.specs.Promise.{RunsWithin, RunsWithBounds, RunsBounded, BoundedCall};
ghost use Rattle.raml_parts.specs.Parts.{Before, IsReady, Gives, IsCallOf, FloorRefusal, CellsWithin};

use analysis_report::{FloorFault, Floors, floors_at};
use bound_infer::Verified;
use normal_program::normal_form;
use raml_io::Store;
use raml_parts::{Call, Limits, analyse, execute, read_call};
use raml_words::Rule;
use refusal_text::Analysed;
use refusals::{Refusal, Report, point_refusal};
use report_text::push_run_bounds;
use share_normal::NormProgram;
use simple_types::Typed;
use std::alloc::{AllocError, Global};

/// A run within limits.
pub fn run_within<S: Store>(
    alloc: Global,
    store: &mut S,
    typed: &Typed,
    name: &str,
    file: &str,
    steps: u64,
    cells: Option<u32>,
) -> Result<Report, Refusal>
    requires ready { IsReady (program_of typed.now) }
    requires steps { steps ≤ 1000000000 }
    requires cells { CellsWithin cells }
    ensures gives { (before : Text → ℕ) → Before before (S.faults store.old) →
        Gives (RunsWithin Sound (store_of (S.holds store.old) before (S.faults store.new)) name.now file.now
        (record { steps = steps; cells = cells_or cells None }) (program_of typed.now)) result }
    ensures kept { S.holds store.new ≡ S.holds store.old }
    ensures later { (other : Text) → S.faults store.old other ≤ S.faults store.new other }
{
    match read_call(alloc, store, typed, name, file) {
        Ok(call) => limited_call(alloc, typed, call, steps, cells),
        Err(refusal) => Err(refusal),
    }
}

/// A call within limits.
pub fn limited_call(
    alloc: Global,
    typed: &Typed,
    call: Call,
    steps: u64,
    cells: Option<u32>,
) -> Result<Report, Refusal>
    requires few_nodes { program_nodes (program_of typed.now) ≤ 2097152 }
    requires steps { steps ≤ 1000000000 }
    requires cells { CellsWithin cells }
    requires call { (f : Placed) × (vs : List Value) × IsCallOf (program_of typed.now) f call vs }
    ensures { (f : Placed) (vs : List Value) → IsCallOf (program_of typed.now) f call vs →
        Gives (Runs Sound (program_of typed.now) f vs (record { steps = steps; cells = cells_or cells None }) [] []) result }
{
    let limits = Limits {
        steps,
        cells: cells_or(cells, None),
    };
    let Call { place, args } = call;
    execute(alloc, typed, place, args.heap, args.words, limits)
}

/// A run with its bounds.
pub fn bounded_run<S: Store>(
    alloc: Global,
    store: &mut S,
    typed: &Typed,
    name: &str,
    file: &str,
    steps: u64,
    cells: Option<u32>,
    degree: u8,
) -> Result<Report, Refusal>
    requires ready { IsReady (program_of typed.now) }
    requires steps { steps ≤ 1000000000 }
    requires cells { CellsWithin cells }
    requires least_degree { 1 ≤ degree }
    requires most_degree { degree ≤ 4 }
    ensures gives { (before : Text → ℕ) → Before before (S.faults store.old) →
        Gives (RunsWithBounds Sound
        (store_of (S.holds store.old) before (S.faults store.new)) name.now file.now steps cells degree (program_of typed.now)) result }
    ensures kept { S.holds store.new ≡ S.holds store.old }
    ensures later { (other : Text) → S.faults store.old other ≤ S.faults store.new other }
{
    match read_call(alloc, store, typed, name, file) {
        Ok(call) => bounded_call(alloc, typed, call, steps, cells, degree),
        Err(refusal) => Err(refusal),
    }
}

fn bounded_call(
    alloc: Global,
    typed: &Typed,
    call: Call,
    steps: u64,
    cells: Option<u32>,
    degree: u8,
) -> Result<Report, Refusal>
    requires ready { IsReady (program_of typed.now) }
    requires steps { steps ≤ 1000000000 }
    requires cells { CellsWithin cells }
    requires least_degree { 1 ≤ degree }
    requires most_degree { degree ≤ 4 }
    requires call { (f : Placed) × (vs : List Value) × IsCallOf (program_of typed.now) f call vs }
    ensures { (f : Placed) (vs : List Value) → IsCallOf (program_of typed.now) f call vs →
        Gives (BoundedCall Sound steps cells degree (program_of typed.now) f vs) result }
{
    match normal_form(alloc, typed) {
        Ok(program) => course_call(alloc, typed, &program, call, steps, cells, degree),
        Err(_) => Err(Refusal::no_memory()),
    }
}

fn course_call(
    alloc: Global,
    typed: &Typed,
    program: &NormProgram<'_>,
    call: Call,
    steps: u64,
    cells: Option<u32>,
    degree: u8,
) -> Result<Report, Refusal>
    requires ready { IsReady (program_of typed.now) }
    requires source { program.now.source ≡ typed.now }
    requires steps { steps ≤ 1000000000 }
    requires cells { CellsWithin cells }
    requires least_degree { 1 ≤ degree }
    requires most_degree { degree ≤ 4 }
    requires call { (f : Placed) × (vs : List Value) × IsCallOf (program_of typed.now) f call vs }
    ensures { (f : Placed) (vs : List Value) → IsCallOf (program_of typed.now) f call vs →
        Gives (OfCourse Sound Analysed.Program (program_of typed.now) (program_in program.now) degree rule.Least
        (λ c. OfFloors Sound (program_of typed.now) (program_in program.now) c f vs
        (λ floors. RunsBounded Sound (program_of typed.now) f vs steps cells floors))) result }
{
    match analyse(alloc, Analysed::Program, program, degree, Rule::Least) {
        Ok(verified) => floors_call(alloc, typed, &verified, call, steps, cells),
        Err(refusal) => Err(refusal),
    }
}

fn floors_call(
    alloc: Global,
    typed: &Typed,
    verified: &Verified<'_, '_>,
    call: Call,
    steps: u64,
    cells: Option<u32>,
) -> Result<Report, Refusal>
    requires ready { IsReady (program_of typed.now) }
    requires source { verified.now.program.source ≡ typed.now }
    requires work { has_work verified.now.certificate ≡ true }
    requires steps { steps ≤ 1000000000 }
    requires cells { CellsWithin cells }
    requires call { (f : Placed) × (vs : List Value) × IsCallOf (program_of typed.now) f call vs }
    ensures { (f : Placed) (vs : List Value) → IsCallOf (program_of typed.now) f call vs →
        Gives (OfFloors Sound (program_of typed.now) (program_in verified.now.program) verified.now.certificate f vs
        (λ floors. RunsBounded Sound (program_of typed.now) f vs steps cells floors)) result }
{
    match floors_at(
        alloc,
        verified,
        call.place,
        &call.args.heap,
        &call.args.words,
    ) {
        Ok(floors) => floored_run(alloc, typed, call, steps, cells, floors),
        Err(fault) => Err(floor_refusal(alloc, fault)),
    }
}

fn floor_refusal(alloc: Global, fault: FloorFault) -> Refusal
    ensures { FloorRefusal fault result }
{
    match fault {
        FloorFault::Leaves { meter } => point_refusal(alloc, meter),
        FloorFault::NoMemory => Refusal::no_memory(),
    }
}

fn floored_run(
    alloc: Global,
    typed: &Typed,
    call: Call,
    steps: u64,
    cells: Option<u32>,
    floors: Floors,
) -> Result<Report, Refusal>
    requires ready { IsReady (program_of typed.now) }
    requires steps { steps ≤ 1000000000 }
    requires cells { CellsWithin cells }
    requires call { (f : Placed) × (vs : List Value) × IsCallOf (program_of typed.now) f call vs }
    ensures { (f : Placed) (vs : List Value) → IsCallOf (program_of typed.now) f call vs →
        Gives (RunsBounded Sound (program_of typed.now) f vs steps cells (floors_of floors)) result }
{
    let limits = Limits {
        steps,
        cells: cells_or(cells, floors.cells),
    };
    let Call { place, args } = call;
    match execute(alloc, typed, place, args.heap, args.words, limits) {
        Ok(report) => with_bounds(alloc, report, floors),
        Err(refusal) => Err(refusal),
    }
}

// The cells that a run may take: as the words say, or else by the bound of cells, where that is not
// too great.
fn cells_or(cells: Option<u32>, floor: Option<u128>) -> u32
    requires { CellsWithin cells }
    ensures is { result ≡ cells_or cells floor }
    ensures few { result ≤ 16777216 }
{
    match cells {
        Some(cells) => cells,
        None => floor_cells(floor),
    }
}

fn floor_cells(floor: Option<u128>) -> u32
    ensures is { result ≡ floor_cells floor }
    ensures few { result ≤ 16777216 }
{
    match floor {
        Some(floor) => {
            if floor <= 16_777_216 {
                floor as u32
            } else {
                1_048_576
            }
        }
        None => 1_048_576,
    }
}

// The report with the lines of the bounds behind it.
fn with_bounds(alloc: Global, report: Report, floors: Floors) -> Result<Report, Refusal>
    ensures text { IfOk result
        (λ bounded. bounded.text.items ≡ report.text.items ++ run_bound_lines floors.ticks floors.cells floors.work) }
    ensures status { IfOk result (λ bounded. bounded.status ≡ report.status) }
    ensures err { IfErr result IsWanting }
{
    let Report { text, status } = report;
    let mut text = text;
    let mut lines = String::new(alloc);
    push_run_bounds(&mut lines, floors.ticks, floors.cells, floors.work)?;
    text.extend_from_slice(lines.as_bytes())?;
    Ok(Report { text, status })
}
