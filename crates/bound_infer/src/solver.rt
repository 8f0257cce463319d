// How systems are solved.
use frac128::Frac;
use simplex::Chooser;

/// How the systems of tasks are solved: by the rule of a chooser and, where there is a limit, with at most so
/// many pivots each.
#[derive(Drop)]
pub(crate) struct Solver<'c, F: Fn(&[Frac]) -> Option<usize>> {
    pub(crate) chooser: &'c Chooser<F>,
    pub(crate) most: Option<usize>,
}
