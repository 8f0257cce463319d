// Why bytes are no program.
ghost use Rattle.std.specs.Prelude.{◌≡◌};
ghost use Rattle.raml_parse.specs.declared.fault.ParseFault.TheVariants.{NoMemory};

use raml_lex::LexFault;
use raml_syntax::Pos;
use std::alloc::AllocError;

/// Why bytes are no program. Places count bytes.
#[derive(Clone, Copy, PartialEq, Eq, Debug)]
pub enum ParseFault {
    /// No character begins at the byte.
    NotUtf8 { at: Pos },
    Lex(LexFault),
    /// No program begins with the tokens up to the one here, or the text ends too soon.
    Syntax { at: Pos },
    /// Each program that begins so has a type or a body of height above 200.
    TooDeep { at: Pos },
    /// Each program that begins so has more than 256 functions, or 8 parameters or arguments.
    TooMany { at: Pos },
    NoMemory,
}

impl From<AllocError> for ParseFault {
    ghost from_gives = { λ _ fault. fault ≡ NoMemory };

    fn from(_error: AllocError) -> ParseFault {
        ParseFault::NoMemory
    }
}
