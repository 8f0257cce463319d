// A site of a program.
use crate::built::Built;
use raml_syntax::{Name, Pos};

/// A use of a variable whose value can be built again there: its place, its function, its name, and how it is built.
#[derive(Clone, Copy, Debug)]
pub struct Site<'a> {
    pub at: Pos,
    pub function: &'a Name,
    pub variable: &'a Name,
    pub built: Built<'a>,
}
