// Analysed programs.
use explain_degrees::Findings;
use raml_syntax::Program;

/// A program, the source that spells it, and for each function what analyses find of it.
#[derive(Clone, Copy)]
pub(crate) struct Analysed<'a> {
    pub(crate) source: &'a [u8],
    pub(crate) program: &'a Program,
    pub(crate) findings: &'a [Findings],
}
