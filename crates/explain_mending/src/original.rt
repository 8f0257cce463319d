// A program that is changed.
use explain_degrees::Findings;
use raml_syntax::Program;

/// A program that is changed: its source, what analyses found of its functions, and up to which degree changed programs are
/// analysed.
#[derive(Clone, Copy)]
pub struct Original<'s, 'a> {
    pub source: &'s [u8],
    pub program: &'a Program,
    pub found: &'s [Findings],
    pub most: u8,
}
