// What plans are made over.
ghost use Rattle.std.specs.Prelude.{◌≡◌};
ghost use Rattle.rules_plan.specs.Given.{given_of, all_down};

use raml_syntax::{FunId, Ty};
use share_normal::NormFuns;
use std::alloc::Global;

/// For which budgets plans are made: for the greatest alone, or for all from it down.
#[derive(Clone, Copy, Debug, PartialEq, Eq)]
pub enum Reach {
    Greatest,
    Down,
}

/// What goes down to all plans of a group as it is: the functions and the types of their results, the
/// group, the greatest budget, and for which budgets plans are made.
#[derive(Drop)]
pub struct Env<'a> {
    pub alloc: Global,
    pub functions: &'a NormFuns,
    pub results: &'a [Ty],
    pub group: &'a [FunId],
    pub top: u8,
    pub reach: Reach,
}

impl<'a> Env<'a> {
    /// The same for all budgets.
    pub fn all_down(&self) -> Env<'a>
        ensures given { given_of result ≡ all_down (given_of self.now) }
        ensures top { result.top ≡ self.now.top }
    {
        Env {
            alloc: self.alloc,
            functions: self.functions,
            results: self.results,
            group: self.group,
            top: self.top,
            reach: Reach::Down,
        }
    }
}
