// Runs that are drawn.
ghost use Rattle.std.specs.Prelude.{◌≡◌, ◌<◌, true, length, IfOk};
ghost use Rattle.std.specs.List.{All};
ghost use Rattle.raml_syntax.specs.Read.{program_of};
ghost use Rattle.annot_types.specs.Certificate.{has_work};
ghost use Rattle.rules_plan.specs.Read.{program_in};
ghost use Rattle.explain_chart.specs.Read.{mark_in};
ghost use Rattle.explain_runs.specs.Measure.{CanRun};
ghost use Rattle.explain_marks.specs.Marks.{IsMarkOf, origin_of};

use crate::given::marks_given;
use crate::made::marks_made;
use bound_infer::Verified;
use cost_free::Meter;
use explain_chart::Mark;
use raml_syntax::FunId;
use simple_types::Typed;
use std::alloc::{AllocError, Global};

/// How many instructions the runs of a picture make at most.
pub(crate) const MOST_STEPS: u64 = 2_000_000;

/// The arguments of runs.
#[derive(Clone, Copy)]
pub enum Runs<'a> {
    Made(Made<'a>),
    Given {
        /// The parameter whose size is drawn.
        place: usize,
        files: &'a [Given<'a>],
    },
}

/// Arguments that are made.
#[derive(Clone, Copy)]
pub struct Made<'a> {
    pub sizes: &'a [u32],
    /// The parameter that has these sizes, where the others have one of their own.
    pub along: Option<usize>,
    /// What random arguments are made from.
    pub seed: u64,
}

/// A file of arguments.
#[derive(Drop)]
pub struct Given<'a> {
    pub name: &'a str,
    pub bytes: Vec<u8>,
}

/// Runs that are drawn.
#[derive(Drop)]
pub struct Marks<'a> {
    /// The runs, by ascending size.
    pub marks: Vec<Mark<'a>>,
    /// Where runs end, as a limit was met.
    pub cut: Option<Cut<'a>>,
    /// How many more instructions may be made.
    pub(crate) steps: u64,
}

/// Where runs end.
#[derive(Clone, Copy)]
pub enum Cut<'a> {
    /// At some arguments of this size.
    Size(u32),
    /// At those of this file.
    File(&'a str),
}

/// Runs of the function on arguments, each with the bound at them by the certificate. They end where arguments have 20000
/// cells, or where all runs together have made 2000000 instructions.
pub fn marks_of<'a>(
    alloc: Global,
    typed: &Typed,
    verified: &Verified<'_, '_>,
    fun: FunId,
    meter: Meter,
    runs: &Runs<'a>,
) -> Result<Marks<'a>, AllocError>
    requires source { verified.now.program.source ≡ typed.now }
    requires runs { CanRun (program_of typed.now) }
    requires fun { fun.0 < length (program_of typed.now) }
    requires work { has_work verified.now.certificate ≡ true }
    ensures { IfOk result (λ found. All
        (λ m. IsMarkOf (program_of typed.now) (program_in verified.now.program) verified.now.certificate fun.0 meter (origin_of runs.now) (mark_in m))
        found.marks.items) }
{
    match *runs {
        Runs::Made(made) => marks_made(alloc, typed, verified, fun, meter, &made),
        Runs::Given { place, files } => {
            marks_given(alloc, typed, verified, fun, meter, place, files)
        }
    }
}
