// A function with the degrees of its targets.
use raml_syntax::FunId;

/// A function, and the degree of each of its targets, 2^32 - 1 where it is greater.
#[derive(Drop)]
pub struct Numbered {
    pub fun: FunId,
    pub degrees: Vec<u32>,
}
