// What sentences begin with.
ghost use Rattle.std.specs.Prelude.{◌≡◌, slice_get, IfOk, string_bytes};
ghost use Rattle.raml_syntax.specs.Read.{program_of};
ghost use Rattle.explain_sentences.specs.Heads as h;
ghost use Rattle.explain_sentences.specs.Read.{lent};

use explain_degrees::Findings;
use explain_lines::is_unbounded;
use raml_syntax::{FunId, Program};
use report_text::name_at;
use std::alloc::{AllocError, Global};

/// Of which meters there is no bound, unless that are all three.
fn of_meters(ticks: bool, cells: bool, work: bool) -> &'static str
    ensures { result.now ≡ h.of_meters ticks cells work }
{
    match (ticks, cells, work) {
        (true, true, true) => "",
        (true, true, false) => " of ticks and cells",
        (true, false, true) => " of ticks and work",
        (true, false, false) => " of ticks",
        (false, true, true) => " of cells and work",
        (false, true, false) => " of cells",
        (false, false, true) => " of work",
        (false, false, false) => "",
    }
}

/// What was found of a function.
fn findings_at(found: &[Findings], fun: FunId) -> Option<&Findings>
    ensures { lent result ≡ slice_get found.now fun.0 }
{
    found.get(fun.0 as usize)
}

/// Of which meters a function has no bound.
fn lacking_meters(found: &[Findings], fun: FunId) -> &'static str
    ensures { result.now ≡ h.lacking_meters (slice_get found.now fun.0) }
{
    match findings_at(found, fun) {
        Some(findings) => of_meters(
            is_unbounded(&findings.ticks),
            is_unbounded(&findings.cells),
            is_unbounded(&findings.work),
        ),
        None => "",
    }
}

/// What a sentence on a function begins with.
fn head(alloc: Global, name: &str, meters: &str) -> Result<String, AllocError>
    ensures { IfOk result (λ head. string_bytes head ≡ h.head name.now meters.now) }
{
    format!(in alloc; "`{name}` lacks a bound{meters}: ")
}

/// What the first sentence on a function begins with: it names the meters of which the function has no bound.
pub fn first_head(
    alloc: Global,
    program: &Program,
    found: &[Findings],
    fun: FunId,
) -> Result<String, AllocError>
    ensures { IfOk result (λ head. string_bytes head ≡ h.first_head (program_of program.now) found.now fun.0) }
{
    head(alloc, name_at(program, fun), lacking_meters(found, fun))
}

/// What the others begin with.
pub fn next_head(alloc: Global, program: &Program, fun: FunId) -> Result<String, AllocError>
    ensures { IfOk result (λ head. string_bytes head ≡ h.next_head (program_of program.now) fun.0) }
{
    head(alloc, name_at(program, fun), "")
}
