// What a schedule goes by.
use raml_syntax::{FunId, Ty};

/// The result type of each function, the groups, callees first, the degree, and whether work is asked
/// for.
#[derive(Clone, Copy)]
pub struct Plan<'a> {
    pub results: &'a [Ty],
    pub groups: &'a [Vec<FunId>],
    pub degree: u8,
    pub work: bool,
}
