// What analyses find of functions.
ghost use Rattle.std.specs.Prelude.{◌≡◌, true, false};
ghost use Rattle.explain_degrees.specs.Degrees.{finding_of, IsBounded};
ghost use Rattle.explain_degrees.specs.declared.finding.Finding.TheVariants.{Refused};

use base_poly::Poly;
use cost_free::Meter;
use raml_syntax::FunId;

/// What analyses up to a degree find of a function and a meter.
#[derive(Debug, Drop)]
pub enum Finding {
    /// This bound, at the least degree at which there is one.
    Bound { degree: u8, poly: Poly },
    /// No bound, up to the highest degree whose analysis was not refused: this one.
    NoBound { degree: u8 },
    /// The same, since the group of the function calls this one, which has no bound.
    Calls { degree: u8, callee: FunId },
    /// Nothing, since the analysis of each degree was refused.
    Refused,
}

impl Finding {
    /// Whether it is a bound.
    pub fn is_bound(&self) -> bool
        ensures yes { result ≡ true → IsBounded self.now }
        ensures no { result ≡ false → IsBounded self.now → ⊥ }
    {
        matches!(self, Finding::Bound { .. })
    }
}

/// What analyses find of a function.
#[derive(Debug, Drop)]
pub struct Findings {
    pub ticks: Finding,
    pub cells: Finding,
    pub work: Finding,
}

impl Findings {
    /// Nothing yet.
    pub(crate) fn none() -> Findings
        ensures { (meter : Meter) → finding_of result meter ≡ Refused }
    {
        Findings {
            ticks: Finding::Refused,
            cells: Finding::Refused,
            work: Finding::Refused,
        }
    }

    /// Whether there is a bound of each meter.
    pub(crate) fn are_bounded(&self) -> bool
        ensures { result ≡ true → (meter : Meter) → IsBounded (finding_of self.now meter) }
    {
        self.ticks.is_bound() && self.cells.is_bound() && self.work.is_bound()
    }

    /// What they find of a meter.
    pub fn of(&self, meter: Meter) -> &Finding
        ensures { result.now ≡ finding_of self.now meter }
    {
        match meter {
            Meter::Ticks => &self.ticks,
            Meter::Cells => &self.cells,
            Meter::Work => &self.work,
        }
    }
}
