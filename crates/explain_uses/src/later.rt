// Later uses.
use raml_syntax::{Name, Pos, Ty};

/// A use of a variable whose value was used before, on some path: its place, that of the first use, its function, and the
/// variable with its type, which holds a list, a tree or an option.
#[derive(Clone, Copy, Debug)]
pub struct LaterUse<'a> {
    pub at: Pos,
    pub first: Pos,
    pub function: &'a Name,
    pub variable: &'a Name,
    pub ty: &'a Ty,
}
