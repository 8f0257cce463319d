// What is decided of declared bounds.
use base_poly::Poly;
use raml_syntax::FunId;

/// Whether a declared bound is kept.
#[derive(Clone, Copy, Debug)]
pub enum Verdict {
    /// It is.
    Kept,
    /// No annotation lies under it.
    NotKept,
    /// The group of the function calls this one, which has no bound.
    Calls(FunId),
}

/// What is decided of a declared bound, with the bound that the analysis found.
#[derive(Debug, Drop)]
pub struct Judged {
    pub verdict: Verdict,
    /// None where there is none.
    pub found: Option<Poly>,
}
