// Laws of the language: each is the contract of a function that does nothing.
ghost use Rattle.raml_syntax.specs.Laws.{CostsGrowWithLimit, FunctionsHavePlaces, TypedRunsKeepTypes};
ghost use Rattle.raml_syntax.specs.Example.{Examples};

/// A greater depth limit costs no less, and where there is a value it stays with its costs.
#[tactic(auto, using(crate::proofs::Grow::costs_grow))]
pub fn costs_grow_with_limit()
    ensures { CostsGrowWithLimit }
{}

/// In a typed program each typed expression of typed values gives a value of its type or is cut,
/// and never falls back on a default.
#[tactic(auto, using(crate::proofs::Keep::typed_runs_keep))]
pub fn typed_runs_keep_types()
    ensures { TypedRunsKeepTypes }
{}

/// A function is found by its name where it is found by its place.
#[tactic(auto, using(crate::proofs::Places::functions_have_places))]
pub fn functions_have_places()
    ensures { FunctionsHavePlaces }
{}

/// Small evaluations give what was worked out by hand.
pub fn small_evaluations()
    ensures { Examples }
{}
