// Tokens and lexical faults.
ghost use Rattle.std.specs.Prelude.{◌≡◌};
ghost use Rattle.raml_lex.specs.declared.token.LexFault.TheVariants.{NoMemory};

use raml_syntax::Pos;
use std::alloc::AllocFailed;

/// The kind of a token.
#[derive(Clone, Copy, PartialEq, Eq, Debug)]
pub enum TokenKind {
    Name,
    Keyword,
    Number,
    Symbol,
}

/// A token: the bytes of the text from `at` up to, but not including, `end`.
#[derive(Clone, Copy, PartialEq, Eq, Debug)]
pub struct Token {
    pub at: Pos,
    pub end: Pos,
    pub kind: TokenKind,
}

/// Why a text has no tokens.
#[derive(Clone, Copy, PartialEq, Eq, Debug)]
pub enum LexFault {
    /// No token begins with the character at `at`.
    BadChar { at: Pos },
    /// The digits from `at` on are a number above 9223372036854775807.
    NumberTooWide { at: Pos },
    /// The comment that begins at `at`, inside no other, has no end.
    OpenComment { at: Pos },
    NoMemory,
}

impl<T: Drop> From<AllocFailed<T>> for LexFault {
    ghost from_gives = { λ _ fault. fault ≡ NoMemory };

    fn from(_failed: AllocFailed<T>) -> LexFault {
        LexFault::NoMemory
    }
}
