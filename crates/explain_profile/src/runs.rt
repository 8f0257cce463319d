// How often a region is run at most.
ghost use Rattle.std.specs.Prelude.{◌≡◌, ◌≤◌, ◌<◌, length, slice_get, Some, All, IfOk, IfSome};
ghost use Rattle.raml_syntax.specs.Types.{types_of};
ghost use Rattle.raml_syntax.specs.Place.{place_of};
ghost use Rattle.raml_syntax.specs.Read.{program_of, function_of};
ghost use Rattle.base_poly.specs.Indices.{AreIndices};
ghost use Rattle.base_poly.specs.Poly.{IsPoly};
ghost use Rattle.poly_point.specs.Point.{AreLow};
ghost use Rattle.explain_bounds.specs.Written.{CanBeTold};
ghost use Rattle.explain_check.specs.Checks.{most_bytes};
ghost use Rattle.explain_regions.specs.Counter.{IsLexed};
ghost use Rattle.explain_profile.specs.Runs as r;
ghost use Rattle.explain_profile.specs.Runs.{AreFound, AreRuns, AreRunsAt, AreRunsIn, IsAt};
ghost use Rattle.explain_profile.specs.Read.{case_of, sizes_in, SpellsIt};

use crate::ticks::ticks_of;
use base_poly::Poly;
use explain_bounds::{parameter_names, parameter_types};
use explain_check::{MOST_BYTES, typed_source};
use explain_degrees::Finding;
use explain_edits::edited;
use explain_reading::read_bound;
use explain_regions::counter_edits;
use explain_sizes::{Size, value_at};
use raml_syntax::laws::functions_have_places;
use raml_syntax::{Fun, FunId, Pos};
use simple_types::Typed;
use std::alloc::{AllocError, Global};

/// How often a region is run at most.
#[derive(Debug, Drop)]
pub enum Runs {
    /// So often, by a sum in algebra and what the names in it mean. The sum is this at the sizes that are given, where that is at
    /// most 2^127.
    AtMost {
        sum: String,
        legend: String,
        at: Option<u128>,
    },
    /// No bound is found.
    NoBound,
    /// No analysis can be made.
    NotAnalysed,
}

/// Whose calls are profiled: a function of the program that this source spells.
#[derive(Clone, Copy)]
pub struct Case<'a> {
    pub source: &'a [u8],
    pub name: &'a str,
    /// The greatest degree to try.
    pub most: u8,
    /// The sizes of the function's parameters, where they are given.
    pub sizes: Option<&'a [Size]>,
}

/// The value of a bound at sizes that are given.
fn value(poly: &Poly, sizes: Option<&[Size]>) -> Option<u128>
    requires poly { IsPoly poly.now }
    requires low { AreLow poly.now }
    ensures { IsAt (sizes_in sizes.entry) poly.now result }
{
    match sizes {
        Some(sizes) => value_at(poly, sizes),
        None => None,
    }
}

/// A bound in algebra, and at sizes that are given.
fn at_most(
    alloc: Global,
    fun: &Fun,
    poly: &Poly,
    sizes: Option<&[Size]>,
) -> Result<Runs, AllocError>
    requires poly { IsPoly poly.now }
    requires tuples { All (λ t. AreIndices t.0 (types_of (function_of fun.now))) poly.now.terms.items }
    requires low { AreLow poly.now }
    ensures { IfOk result (r.IsBound (sizes_in sizes.entry) (function_of fun.now) poly.now) }
{
    let types = parameter_types(alloc, &fun.params)?;
    let names = parameter_names(alloc, &fun.params)?;
    let reading = read_bound(alloc, poly, &types, &names)?;
    Ok(Runs::AtMost {
        sum: reading.sum,
        legend: reading.legend,
        at: value(poly, sizes),
    })
}

/// What is found of the ticks of a function.
fn runs_for(
    alloc: Global,
    fun: &Fun,
    finding: &Finding,
    sizes: Option<&[Size]>,
) -> Result<Runs, AllocError>
    requires { CanBeTold (types_of (function_of fun.now)) finding.now }
    ensures { IfOk result (AreRuns (sizes_in sizes.entry) (function_of fun.now) finding.now) }
{
    match finding {
        Finding::Bound { poly, .. } => at_most(alloc, fun, poly, sizes),
        Finding::NoBound { .. } => Ok(Runs::NoBound),
        Finding::Calls { .. } => Ok(Runs::NoBound),
        Finding::Refused => Ok(Runs::NotAnalysed),
    }
}

/// The function at a place.
fn fun_at(typed: &Typed, fun: FunId) -> &Fun
    requires { fun.0 < length (program_of typed.now) }
    ensures { slice_get (program_of typed.now) fun.0 ≡ Some (function_of result.now) }
{
    &typed.program().funs[fun.0 as usize]
}

/// What analyses find of the ticks of the function at a place.
fn runs_at(alloc: Global, case: Case<'_>, typed: &Typed, fun: FunId) -> Result<Runs, AllocError>
    requires most { case.most ≤ 4 }
    requires fun { fun.0 < length (program_of typed.now) }
    ensures { IfOk result (AreFound (program_of typed.now) case.entry.most (sizes_in case.entry.sizes) (Some fun.0)) }
{
    let function = fun_at(typed, fun);
    let found = ticks_of(alloc, typed, fun, case.most)?;
    runs_for(alloc, function, &found, case.sizes)
}

/// What analyses find of the ticks of the function of a program.
fn runs_in(alloc: Global, case: Case<'_>, typed: &Typed) -> Result<Runs, AllocError>
    requires { case.most ≤ 4 }
    ensures { IfOk result (AreFound (program_of typed.now) case.entry.most (sizes_in case.entry.sizes)
        (place_of case.entry.name.now (program_of typed.now))) }
{
    functions_have_places();
    let program = typed.program();
    match program.find(case.name) {
        Some(fun) => runs_at(alloc, case, typed, fun),
        None => Ok(Runs::NotAnalysed),
    }
}

/// The typed program that a text spells. None where `raml` refuses the text, or it is longer than a source may be.
#[tactic(auto, using(crate::proofs::Unspelled::kept_short))]
pub fn program_in(alloc: Global, text: &[u8]) -> Result<Option<Typed>, AllocError>
    ensures spells { IfOk result (SpellsIt text.now) }
    ensures short { IfOk result (λ program. IfSome program (λ _. length text.now ≤ most_bytes)) }
{
    if text.len() as u64 > MOST_BYTES {
        return Ok(None);
    }
    let mut report = String::new(alloc);
    typed_source(alloc, "", text, &mut report)
}

/// How often a region is run at most, by the source with a counter in it.
fn runs_by(alloc: Global, case: Case<'_>, changed: &[u8]) -> Result<Runs, AllocError>
    requires most { case.most ≤ 4 }
    ensures { IfOk result (AreRunsIn (case_of case.entry) changed.now) }
{
    match program_in(alloc, changed)? {
        Some(typed) => runs_in(alloc, case, &typed),
        None => Ok(Runs::NotAnalysed),
    }
}

/// How often the region that begins there is run at most.
pub fn runs_of_region(alloc: Global, case: Case<'_>, region: Pos) -> Result<Runs, AllocError>
    requires most { case.most ≤ 4 }
    requires lexed { IsLexed case.source.now }
    ensures { IfOk result (AreRunsAt (case_of case.entry) region.0) }
{
    let edits = counter_edits(alloc, case.source, region)?;
    let changed = edited(alloc, case.source, &edits)?;
    runs_by(alloc, case, &changed)
}
