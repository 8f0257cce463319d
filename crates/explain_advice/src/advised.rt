// Programs some of whose functions have no bound.
use explain_degrees::Findings;
use raml_syntax::Program;

/// A program, the source that spells it, and for each function what analyses find of it.
#[derive(Clone, Copy)]
pub struct Advised<'a> {
    pub source: &'a [u8],
    pub program: &'a Program,
    pub found: &'a [Findings],
}
