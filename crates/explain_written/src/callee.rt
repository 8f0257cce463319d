// The function whose calls are written out.
use crate::known::is_known;
use raml_syntax::{Expr, Fun, Name};

/// Which calls of a function are written out.
#[derive(Clone, Copy, PartialEq, Eq, Debug)]
pub enum Calls {
    /// All, also those in the body that is written out.
    All,
    /// Those with an argument of which it is known of what it is built. Those in the body that is written out stay calls.
    OfKnown,
}

/// The function whose calls are written out, and which of them.
#[derive(Clone, Copy)]
pub struct Callee<'a> {
    pub fun: &'a Fun,
    pub calls: Calls,
}

impl<'a> Callee<'a> {
    /// Whether a call of the function of this name is written out.
    pub fn is_called(self, name: &Name, args: &[Expr]) -> bool {
        if self.fun.name.text() != name.text() {
            return false;
        }
        match self.calls {
            Calls::All => true,
            Calls::OfKnown => has_known(args),
        }
    }

    /// Whose calls are written out in the body that is written out.
    pub fn inside(self) -> Option<Callee<'a>> {
        match self.calls {
            Calls::All => Some(self),
            Calls::OfKnown => None,
        }
    }
}

/// Whether it is known of one of the arguments of what it is built.
fn has_known(args: &[Expr]) -> bool {
    for arg in args {
        if is_known(arg) {
            return true;
        }
    }
    false
}
