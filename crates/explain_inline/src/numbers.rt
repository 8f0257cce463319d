// Numbers at the ends of names.
use explain_tokens::word;
use raml_lex::{Token, TokenKind};

/// The number of the digits at the end of a word, 0 where there are none.
fn ending(word: &[u8]) -> u32 {
    let mut number: u32 = 0;
    for byte in word {
        number = if byte.is_ascii_digit() {
            number
                .saturating_mul(10)
                .saturating_add(u32::from(byte.wrapping_sub(b'0')))
        } else {
            0
        };
    }
    number
}

/// The greatest number at the end of a name of the source, 1 at least.
pub fn greatest_number(source: &[u8], tokens: &[Token]) -> u32 {
    let mut greatest = 1;
    for token in tokens {
        if token.kind == TokenKind::Name {
            greatest = ending(word(source, token)).max(greatest);
        }
    }
    greatest
}
