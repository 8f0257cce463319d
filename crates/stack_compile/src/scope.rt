// Locals by their names.
ghost use Rattle.std.specs.Prelude.{◌≡◌, length};
ghost use Rattle.stack_compile.specs.Code.{local_of};
ghost use Rattle.stack_compile.specs.Read.{names_in};

use raml_syntax::{FunctionNames, Name};

/// The locals at hand, the newest outermost.
#[derive(Clone, Copy)]
pub enum Scope<'s, 'a> {
    Empty,
    Bound {
        name: &'a Name,
        outer: &'s Scope<'s, 'a>,
    },
}

/// What names stand for at a place of the program.
#[derive(Clone, Copy)]
pub struct Env<'s, 'a> {
    pub functions: &'s FunctionNames<'a>,
    pub scope: &'s Scope<'s, 'a>,
    /// How many locals there are.
    pub depth: u32,
}

impl<'s, 'a> Scope<'s, 'a> {
    /// The number of the newest local of this name, among so many locals. A typed program names no other;
    /// for one that is not there it is 0.
    pub fn find(&self, wanted: &str, depth: u32) -> u32
        requires numbered { depth ≡ length (names_in self.now) }
        ensures { result ≡ local_of wanted.now (names_in self.now) }
    {
        match self {
            Scope::Empty => 0,
            Scope::Bound { name, outer } => {
                if wanted == name.text() {
                    depth - 1
                } else {
                    outer.find(wanted, depth - 1)
                }
            }
        }
    }
}
