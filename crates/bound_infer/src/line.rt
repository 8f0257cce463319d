// What is told of a function and a meter.
use base_poly::Poly;
use raml_syntax::FunId;

/// What is told of a function and a meter.
#[derive(Debug, Drop)]
pub enum Line {
    /// The polynomial is a bound.
    Bound(Poly),
    /// There is none.
    NoBound,
    /// There is none, since the group calls this function, which has none.
    Calls(FunId),
}
