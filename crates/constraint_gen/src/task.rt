// What a task is about: the types of its functions, its weights and its target.
ghost use Rattle.std.specs.Prelude.{◌≡◌, ◌≤◌, ◌^◌, ◌++◌, ◌∷◌, [], ◌&&◌, nat_eq, nat_lt, cond, pos, map, filter, length, replicate};
ghost use Rattle.std.specs.Prelude.{slice_get, slice_index_or, vec_len, IfOk, OnOk};
ghost use Rattle.std.specs.List.{list_any, range_with_len};
ghost use Rattle.raml_syntax.specs.Read.{ty_of};
ghost use Rattle.base_poly.specs.Plain.{alike, degrees};
ghost use Rattle.base_poly.specs.Read.{context_of};
ghost use Rattle.base_poly.specs.Indices.{tuples_up_to, index_list};
ghost use Rattle.index_shift.specs.Tables.{how_many};
ghost use Rattle.cost_free.specs.Target.{targets};
ghost use Rattle.cost_free.specs.Read.{task_of, kind_of, ids_of};
ghost use Rattle.normal_spec.specs.Context.{types};
ghost use Rattle.normal_spec.specs.Read.{parameters_of};
ghost use Rattle.annot_types.specs.Program.{members};
ghost use Rattle.annot_types.specs.Holds as h;
ghost use Rattle.annot_types.specs.Rows as r;
ghost use Rattle.annot_types.specs.System.{args_of, result_of, sig_weights};
ghost use Rattle.rules_spec.specs.Jobs.{positions_of, target_place, target_positions};
ghost use Rattle.rules_spec.specs.Planned.{place_in};
ghost use Rattle.std.specs.Option.{unwrap_or};
ghost use Rattle.rules_walk.specs.Read as w;
ghost use Rattle.rules_plan.specs.Read.{program_in};
ghost use Rattle.raml_num.specs.Sums.{NoneNegative};
ghost use Rattle.constraint_gen.specs.Made.{filled};
ghost use Rattle.constraint_gen.specs.Weights.{weight_of, positions_in};

use base_poly::{IndexFault, Tuple, degrees, indices};
use cost_free::{Target, TaskKind, targets};
use raml_syntax::{FunId, Ty};
use rules_walk::Mode;
use share_normal::NormProgram;
use std::alloc::{AllocError, Global};
use std::slice;

/// The budget of a task, at degree `d`.
pub fn budget_of(d: u8, kind: TaskKind) -> u8
    ensures { result ≡ h.budget_of d (kind_of kind) }
{
    match kind {
        TaskKind::Free { budget, .. } => budget,
        TaskKind::With(_) => d,
    }
}

/// The mode in which its group is walked.
pub fn mode_of(kind: TaskKind) -> Mode
    ensures { w.mode_of result ≡ h.mode_of (kind_of kind) }
{
    match kind {
        TaskKind::Free { .. } => Mode::Own,
        TaskKind::With(meter) => Mode::With(meter),
    }
}

/// The functions of a group; none where there is no such group.
pub fn members<'p>(program: &'p NormProgram<'_>, group: u32) -> &'p [FunId]
    ensures { ids_of result.now ≡ members (program_in program.now) group }
{
    match program.groups().list().get(group as usize) {
        Some(functions) => functions,
        None => &[],
    }
}

// The types of parameters.
fn parameter_types(alloc: Global, parameters: &[(u32, Ty)]) -> Result<Vec<Ty>, AllocError>
    ensures { IfOk result (λ made. context_of made.items ≡ types (parameters_of parameters.now)) }
{
    let mut made = Vec::with_capacity(alloc, parameters.len())?;
    for parameter in parameters {
        made.push(parameter.1.copy(alloc)?)?;
    }
    Ok(made)
}

// The types of a function's parameters; none where there is no such function.
fn arguments(alloc: Global, program: &NormProgram<'_>, fun: FunId) -> Result<Vec<Ty>, AllocError>
    ensures { IfOk result (λ made. context_of made.items ≡ args_of (slice_get (program_in program.now).funs fun.0)) }
{
    let place = fun.0 as usize;
    if place >= program.functions().len() || place >= program.results().len() {
        return Ok(Vec::new(alloc));
    }
    let made = parameter_types(alloc, &program.functions().fun(fun).params)?;
    Ok(made)
}

// The type of its result, alone.
fn result_types<'p>(program: &'p NormProgram<'_>, fun: FunId) -> &'p [Ty]
    ensures { context_of result.now ≡ result_of (slice_get (program_in program.now).funs fun.0) }
{
    let place = fun.0 as usize;
    if place >= program.functions().len() || place >= program.results().len() {
        return &[];
    }
    slice::from_ref(&program.results()[place])
}

// The tuples of a context at a budget.
fn tuples(alloc: Global, types: &[Ty], budget: u8) -> Result<Vec<Tuple>, AllocError>
    ensures { IfOk result (λ found. found.items ≡ index_list (context_of types.now) budget) }
{
    match indices(alloc, types, budget, usize::MAX) {
        Ok(found) => Ok(found),
        Err(IndexFault::TooMany | IndexFault::NoMemory) => Err(AllocError),
    }
}

// Ten to the degree, which is at most 4.
fn weight(degree: u32) -> i128
    requires { degree ≤ 4 }
    ensures { result ≡ pos (10 ^ degree) }
{
    match degree {
        0 => 1,
        1 => 10,
        2 => 100,
        3 => 1000,
        _ => 10_000,
    }
}

// How many of the degrees are this one.
fn how_many(degree: u8, degrees: &[u8]) -> usize
    ensures { result ≡ how_many degree degrees.now }
{
    let mut count = 0;
    for other in degrees {
        if *other == degree {
            count += 1;
        }
    }
    count
}

// So many times the number.
fn append_times(weights: &mut Vec<i128>, number: i128, count: usize) -> Result<(), AllocError>
    ensures { OnOk result (weights.new.items ≡ weights.old.items ++ replicate count number) }
{
    for _ in 0..count {
        weights.push(number)?;
    }
    Ok(())
}

// The degrees of all tuples of a context at a budget, in no order.
fn all_degrees(alloc: Global, types: &[Ty], budget: u8) -> Result<Vec<u8>, AllocError>
    ensures all { IfOk result (λ found. found.items ≡ map degrees (tuples_up_to (context_of types.now) budget)) }
{
    match degrees(alloc, types, budget, usize::MAX) {
        Ok(found) => Ok(found),
        Err(IndexFault::TooMany | IndexFault::NoMemory) => Err(AllocError),
    }
}

// How many tuples of a context there are at a budget.
fn size(alloc: Global, types: &[Ty], budget: u8) -> Result<usize, AllocError>
    ensures { IfOk result (λ count. count ≡ r.size (context_of types.now) budget) }
{
    match base_poly::positions(alloc, types, budget, usize::MAX) {
        Ok(count) => Ok(count),
        Err(IndexFault::TooMany | IndexFault::NoMemory) => Err(AllocError),
    }
}

// The weights of the tuples with these degrees, by ascending degree.
fn append_weights(
    weights: &mut Vec<i128>,
    types: &[Ty],
    all: &[u8],
    budget: u8,
) -> Result<(), AllocError>
    requires low { budget ≤ 4 }
    requires all { all.now ≡ map degrees (tuples_up_to (context_of types.now) budget) }
    ensures { OnOk result (weights.new.items ≡ weights.old.items ++ map weight_of (index_list (context_of types.now) budget)) }
{
    for degree in 0..budget + 1 {
        let count = how_many(degree, all);
        append_times(weights, weight(u32::from(degree)), count)?;
    }
    Ok(())
}

// The weights of a function's signature.
fn append_signature(
    alloc: Global,
    weights: &mut Vec<i128>,
    program: &NormProgram<'_>,
    fun: FunId,
    budget: u8,
) -> Result<(), AllocError>
    requires { budget ≤ 4 }
    ensures { OnOk result (weights.new.items ≡ weights.old.items
        ++ (map weight_of (index_list (args_of (slice_get (program_in program.now).funs fun.0)) budget)
        ++ replicate (r.size (result_of (slice_get (program_in program.now).funs fun.0)) budget) (pos 0))) }
{
    let types = arguments(alloc, program, fun)?;
    let all = all_degrees(alloc, &types, budget)?;
    append_weights(weights, &types, &all, budget)?;
    let count = size(alloc, result_types(program, fun), budget)?;
    append_times(weights, 0, count)?;
    Ok(())
}

/// The weights of the signatures of a group, with room for so many.
pub fn sig_weights(
    alloc: Global,
    program: &NormProgram<'_>,
    functions: &[FunId],
    budget: u8,
    room: usize,
) -> Result<Vec<i128>, AllocError>
    requires { budget ≤ 4 }
    ensures { IfOk result (λ weights. weights.items ≡ sig_weights (program_in program.now) budget (ids_of functions.now)) }
{
    let mut weights = Vec::with_capacity(alloc, room)?;
    for fun in functions {
        append_signature(alloc, &mut weights, program, *fun, budget)?;
    }
    Ok(weights)
}

// The positions, at the budget, of the tuples of a target.
fn positions(
    alloc: Global,
    types: &[Ty],
    target: &[Tuple],
    budget: u8,
) -> Result<Vec<usize>, AllocError>
    ensures { IfOk result (λ found. found.items
        ≡ filter (λ k. list_any (alike (slice_index_or (index_list (context_of types.now) budget) k [])) target.now)
        (range_with_len 0 (length (index_list (context_of types.now) budget)))) }
{
    let all = tuples(alloc, types, budget)?;
    let mut found = Vec::new(alloc);
    for place in 0..all.len() {
        append_place(&mut found, place, is_among(&all[place], target))?;
    }
    Ok(found)
}

// A place is appended, or it is not.
fn append_place(found: &mut Vec<usize>, place: usize, is_found: bool) -> Result<(), AllocError>
    ensures { OnOk result (found.new.items ≡ found.old.items ++ cond is_found (place ∷ []) []) }
{
    if is_found {
        found.push(place)?;
    }
    Ok(())
}

// Whether the tuple is one of these.
fn is_among(tuple: &Tuple, target: &[Tuple]) -> bool
    ensures { result ≡ list_any (alike tuple.now) target.now }
{
    for other in target {
        if *tuple == *other {
            return true;
        }
    }
    false
}

/// The positions of a task's target; none for a task with a meter.
pub fn target_positions(
    alloc: Global,
    program: &NormProgram<'_>,
    d: u8,
    kind: TaskKind,
) -> Result<Vec<usize>, AllocError>
    ensures { IfOk result (λ found. found.items ≡ target_positions (program_in program.now) d (kind_of kind)) }
{
    match kind {
        TaskKind::Free {
            budget,
            fun,
            target,
        } => positions_of(alloc, program, d, budget, fun, target),
        TaskKind::With(_) => Ok(Vec::new(alloc)),
    }
}

// Those of a cost-free task.
fn positions_of(
    alloc: Global,
    program: &NormProgram<'_>,
    d: u8,
    budget: u8,
    fun: FunId,
    number: u32,
) -> Result<Vec<usize>, AllocError>
    ensures { IfOk result (λ found. found.items ≡ positions_of d budget number (slice_get (program_in program.now).funs fun.0)) }
{
    let types = result_types(program, fun);
    let found = positions_in(alloc, types, d, budget, number)?;
    Ok(found)
}

// Those of a type that stands alone; none where there is no type.
fn positions_in(
    alloc: Global,
    types: &[Ty],
    d: u8,
    budget: u8,
    number: u32,
) -> Result<Vec<usize>, AllocError>
    ensures { IfOk result (λ found. found.items ≡ positions_in d budget number (context_of types.now)) }
{
    if is_unit(alloc, types, d, number)? {
        let found = unit_positions(alloc, types, budget, number)?;
        return Ok(found);
    }
    let found = listed_positions(alloc, types, d, budget, number)?;
    Ok(found)
}

// Whether the target of this number is a unit target: its one tuple has this place among all.
fn is_unit(alloc: Global, types: &[Ty], d: u8, number: u32) -> Result<bool, AllocError>
    ensures { IfOk result (λ unit. unit ≡ (nat_eq (length types.now) 1 && nat_lt number (r.size (context_of types.now) d))) }
{
    let count = size(alloc, types, d)?;
    Ok(types.len() == 1 && (number as usize) < count)
}

// The position of a unit target, which is its number; none where the budget has no such tuple.
fn unit_positions(
    alloc: Global,
    types: &[Ty],
    budget: u8,
    number: u32,
) -> Result<Vec<usize>, AllocError>
    ensures { IfOk result (λ found. found.items ≡ cond (nat_lt number (r.size (context_of types.now) budget)) (number ∷ []) []) }
{
    let count = size(alloc, types, budget)?;
    let mut found = Vec::new(alloc);
    append_place(&mut found, number as usize, (number as usize) < count)?;
    Ok(found)
}

// Those of any target, by the lists of all targets and of all tuples.
fn listed_positions(
    alloc: Global,
    types: &[Ty],
    d: u8,
    budget: u8,
    number: u32,
) -> Result<Vec<usize>, AllocError>
    ensures { IfOk result (λ found. found.items ≡ positions_in d budget number (context_of types.now)) }
{
    match types {
        [ty, ..] => {
            let target = target_at(alloc, ty, d, number)?;
            let found = positions(alloc, types, tuples_of(&target), budget)?;
            Ok(found)
        }
        [] => Ok(Vec::new(alloc)),
    }
}

// The target of this number, where there is one.
fn target_at(alloc: Global, ty: &Ty, d: u8, number: u32) -> Result<Option<Target>, AllocError>
    ensures { IfOk result (λ found. found ≡ slice_get (targets (ty_of ty.now) d) number) }
{
    match targets(alloc, ty, d) {
        Ok(all) => all.get(alloc, number as usize),
        Err(IndexFault::TooMany | IndexFault::NoMemory) => Err(AllocError),
    }
}

// The tuples of a target; none where there is none.
fn tuples_of(target: &Option<Target>) -> &[Tuple]
    ensures { result.now ≡ unwrap_or target.now [] }
{
    match target {
        Some(target) => target.tuples(),
        None => &[],
    }
}

/// The place of the target's function in the group.
pub fn target_place(functions: &[FunId], kind: TaskKind) -> usize
    ensures { result ≡ target_place (ids_of functions.now) (kind_of kind) }
{
    match kind {
        TaskKind::Free { fun, .. } => place_in(functions, fun),
        TaskKind::With(_) => 0,
    }
}

// The place of a function in a group, 0 where it is not there.
fn place_in(functions: &[FunId], fun: FunId) -> usize
    ensures { result ≡ unwrap_or (place_in (ids_of functions.now) fun.0) 0 }
{
    for place in 0..functions.len() {
        if functions[place].0 == fun.0 {
            return place;
        }
    }
    0
}

/// With a 0 for each other unknown. Weights past the last unknown are dropped.
pub fn fill(weights: &mut Vec<i128>, count: u32) -> Result<(), AllocError>
    ensures filled { OnOk result (length weights.old.items ≤ count → weights.new.items ≡ filled count weights.old.items) }
    ensures count { OnOk result (vec_len weights.new ≡ count) }
    ensures natural { OnOk result (NoneNegative weights.old.items → NoneNegative weights.new.items) }
{
    weights.truncate(count as usize);
    let missing = count as usize - weights.len();
    append_times(weights, 0, missing)?;
    Ok(())
}
