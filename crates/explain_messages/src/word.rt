// Tokens of a source.
ghost use Rattle.std.specs.Prelude.{◌<◌, ◌^◌, length};

use raml_lex::{LexFault, Token, TokenKind, tokens};
use std::alloc::{AllocError, Global};

/// A token. The end of the source is a symbol without text.
#[derive(Clone, Copy)]
pub struct Word<'a> {
    pub kind: TokenKind,
    pub text: &'a str,
}

impl<'a> Word<'a> {
    /// No token.
    pub fn missing() -> Word<'a> {
        Word {
            kind: TokenKind::Symbol,
            text: "",
        }
    }

    pub fn is_missing(self) -> bool {
        self.text == ""
    }

    pub fn is_name(self) -> bool {
        self.kind == TokenKind::Name
    }

    pub fn is_keyword(self) -> bool {
        self.kind == TokenKind::Keyword
    }

    pub fn is_number(self) -> bool {
        self.kind == TokenKind::Number
    }
}

/// The tokens of a text.
#[derive(Drop)]
pub struct Words<'a> {
    text: &'a str,
    tokens: Vec<Token>,
}

impl<'a> Words<'a> {
    /// The tokens of the source; none where it is no text that has some.
    pub fn of(alloc: Global, source: &'a [u8]) -> Result<Words<'a>, AllocError> {
        let text = std::str::from_utf8(source).unwrap_or("");
        let tokens = if text.len() < 1 << 31 {
            tokens_or_none(alloc, text)?
        } else {
            Vec::new(alloc)
        };
        Ok(Words { text, tokens })
    }

    /// How many tokens begin before the place.
    pub fn count_before(&self, place: usize) -> usize {
        self.tokens
            .iter()
            .take_while(|token| (token.at.0 as usize) < place)
            .count()
    }

    /// The token with so many before it.
    pub fn get(&self, index: usize) -> Word<'a> {
        match self.tokens.get(index) {
            None => Word::missing(),
            Some(token) => Word {
                kind: token.kind,
                text: self
                    .text
                    .get(token.at.0 as usize..token.end.0 as usize)
                    .unwrap_or(""),
            },
        }
    }

    /// The token that comes so many before the one with `index` before it.
    pub fn back(&self, index: usize, count: usize) -> Word<'a> {
        match index.checked_sub(count) {
            None => Word::missing(),
            Some(earlier) => self.get(earlier),
        }
    }

    /// Where the token before the one with so many before it ends; at 0 where there is none.
    pub fn end_back(&self, index: usize) -> usize {
        index
            .checked_sub(1)
            .and_then(|earlier| self.tokens.get(earlier))
            .map_or(0, |token| token.end.0 as usize)
    }
}

fn tokens_or_none(alloc: Global, text: &str) -> Result<Vec<Token>, AllocError>
    requires { length text.now < 2 ^ 31 }
{
    match tokens(alloc, text) {
        Ok(tokens) => Ok(tokens),
        Err(LexFault::NoMemory) => Err(AllocError),
        Err(_) => Ok(Vec::new(alloc)),
    }
}
