// Pieces of a source in a text of one line.
use crate::word::Word;
use std::alloc::AllocError;

/// The longest piece that is shown whole, in bytes.
const LONGEST: usize = 40;

/// Appends the token: a name or a number by itself, another one in quotes.
pub fn push_word(text: &mut String, word: Word) -> Result<(), AllocError> {
    if word.is_name() || word.is_number() {
        push_cut(text, word.text)
    } else {
        text.push_str("'")?;
        push_cut(text, word.text)?;
        text.push_str("'")
    }
}

/// Appends the text, of which a long one is cut.
pub fn push_cut(text: &mut String, piece: &str) -> Result<(), AllocError> {
    if piece.len() <= LONGEST {
        return text.push_str(piece);
    }
    text.push_str(piece.get(..LONGEST).unwrap_or(""))?;
    text.push_str("..")
}

/// Appends the character that begins the text: a sign in quotes, another one by its number.
pub fn push_character(text: &mut String, rest: &str) -> Result<(), AllocError> {
    match rest.chars().next() {
        None => text.push_str("the end"),
        Some('\'') => text.push_str("\"'\""),
        Some(character) if character.is_ascii_graphic() => write!(text, "'{character}'"),
        Some(character) => {
            let code = u32::from(character);
            write!(text, "the character U+{code:04X}")
        }
    }
}

/// Appends the byte.
pub fn push_byte(text: &mut String, byte: u8) -> Result<(), AllocError> {
    write!(text, "\\x{byte:02x}")
}
