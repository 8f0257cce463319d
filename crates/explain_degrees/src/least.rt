// The analyses of a program from degree 1 on.
ghost use Rattle.bound_infer.specs.declared.refusal.InferFault.TheVariants.{NoMemory};
ghost use Rattle.std.specs.Prelude.{◌≡◌, ◌≢◌, ◌≤◌, ◌-◌, length, IfOk, IsTrue};
ghost use Rattle.raml_syntax.specs.Tree.{Prog};
ghost use Rattle.annot_types.specs.Program.{Program};
ghost use Rattle.share_normal.specs.Program.{source_in};
ghost use Rattle.rules_plan.specs.Read.{program_in};
ghost use Rattle.explain_degrees.specs.Degrees.{AreFindings, AreLeast, AllBounded};
ghost use Rattle.explain_degrees.specs.Within.{AreLeastWithin, IsAdded};

use crate::analysis::analyse_within;
use crate::finding::Findings;
use crate::noted::note_functions;
use bound_infer::InferFault;
use share_normal::NormProgram;
use std::alloc::{AllocError, Global};

/// A degree whose analysis was refused, and why.
#[derive(Debug, Drop)]
pub struct RefusedDegree {
    pub degree: u8,
    pub fault: InferFault,
}

/// What analyses up to a degree find.
#[derive(Debug, Drop)]
pub struct LeastBounds {
    /// For each function, in the order of the source, what they find of it.
    pub functions: Vec<Findings>,
    /// The degrees whose analyses were refused.
    pub refused: Vec<RefusedDegree>,
}

/// What analyses up to a degree find, each with no more pivots than a budget.
#[derive(Debug, Drop)]
pub struct LeastWithin {
    /// What those find that were not given up.
    pub found: LeastBounds,
    /// The first degree whose analysis takes more pivots than the budget: it was given up, and no greater
    /// degree was tried.
    pub given_up: Option<u8>,
}

/// For each function of a program and each meter the bound of the least degree up to `most` at which there is one. A
/// degree whose analysis a limit refuses does not hide the others.
pub fn least_bounds(
    alloc: Global,
    program: &NormProgram<'_>,
    most: u8,
) -> Result<LeastBounds, AllocError>
    requires { most ≤ 4 }
    ensures { IfOk result (AreLeast (source_in program.now) (program_in program.now) most) }
{
    let within = least_bounds_within(alloc, program, most, None)?;
    Ok(within.found)
}

/// The same with no more pivots in the analysis of a degree than the budget, if there is one: up to the first
/// degree whose analysis takes more.
pub fn least_bounds_within(
    alloc: Global,
    program: &NormProgram<'_>,
    most: u8,
    budget: Option<usize>,
) -> Result<LeastWithin, AllocError>
    requires { most ≤ 4 }
    ensures { IfOk result (AreLeastWithin (source_in program.now) (program_in program.now) most budget) }
{
    let mut found = LeastBounds {
        functions: nothing_found(alloc, program.functions().len())?,
        refused: Vec::new(alloc),
    };
    let mut degree = 0;
    while degree < most && !are_bounded(&found.functions) {
        degree += 1;
        if !add_degree(alloc, program, degree, budget, &mut found)? {
            return Ok(LeastWithin {
                found,
                given_up: Some(degree),
            });
        }
    }
    Ok(LeastWithin {
        found,
        given_up: None,
    })
}

/// Adds what the analysis of one more degree finds, unless it is given up: whether it is not.
fn add_degree(
    alloc: Global,
    program: &NormProgram<'_>,
    degree: u8,
    budget: Option<usize>,
    found: &mut LeastBounds,
) -> Result<bool, AllocError>
    requires least_degree { 1 ≤ degree }
    requires most_degree { degree ≤ 4 }
    requires before { AreLeast (source_in program.now) (program_in program.now) (degree - 1) found.old }
    ensures { IfOk result (IsAdded (source_in program.now) (program_in program.now) degree budget found.new) }
{
    let _source = program.source();
    match analyse_within(alloc, program, degree, budget) {
        Ok(Some(verified)) => {
            note_functions(alloc, &mut found.functions, &verified, degree)?;
            Ok(true)
        }
        Ok(None) => Ok(false),
        Err(fault) => {
            found.refused.push(refused(degree, fault)?)?;
            Ok(true)
        }
    }
}

/// The degree with what refuses its analysis, unless memory was wanting.
pub fn refused(degree: u8, fault: InferFault) -> Result<RefusedDegree, AllocError>
    ensures degree { IfOk result (λ r. r.degree ≡ degree) }
    ensures fault { IfOk result (λ r. r.fault ≡ fault) }
    ensures refused { IfOk result (λ r. r.fault ≢ NoMemory) }
{
    match fault {
        InferFault::NoMemory => Err(AllocError),
        InferFault::TooLarge { task, what } => Ok(RefusedDegree {
            degree,
            fault: InferFault::TooLarge { task, what },
        }),
        InferFault::Leaves(at) => Ok(RefusedDegree {
            degree,
            fault: InferFault::Leaves(at),
        }),
    }
}

/// So many functions, of which nothing is found yet.
fn nothing_found(alloc: Global, count: usize) -> Result<Vec<Findings>, AllocError>
    ensures count { IfOk result (λ all. length all.items ≡ count) }
    ensures found { (P : Prog) (N : Program) → IfOk result (λ all. AreFindings P N 0 all.items) }
{
    let mut functions = Vec::with_capacity(alloc, count)?;
    for _ in 0..count {
        functions.push(Findings::none())?;
    }
    Ok(functions)
}

/// Whether a bound is found of each function and meter.
fn are_bounded(functions: &[Findings]) -> bool
    ensures { IsTrue result → AllBounded functions.now }
{
    functions.iter().all(|findings| findings.are_bounded())
}
