// What stands at a place of data, in words.
use crate::token::next_token;
use std::alloc::AllocError;
use std::fmt::Write;

/// The longest word that is shown whole, in bytes.
const LONGEST: usize = 40;

/// Appends what begins a text.
pub fn push_here(text: &mut String, rest: &[u8]) -> Result<(), AllocError> {
    match next_token(rest) {
        None => text.push_str("the data ends here"),
        Some((token, _)) => match kind_of(token) {
            Some(kind) => {
                text.push_str("here is ")?;
                text.push_str(kind)
            }
            None => push_token(text, token, rest),
        },
    }
}

// The kind of value that begins with a token.
fn kind_of(token: &[u8]) -> Option<&'static str> {
    match token {
        b"true" | b"false" => Some("a bool"),
        b"leaf" | b"node" => Some("a tree"),
        b"none" | b"some" => Some("an option"),
        b"[" => Some("a list"),
        _ => number_kind(token),
    }
}

// The kind of number that a token is.
fn number_kind(token: &[u8]) -> Option<&'static str> {
    let digits = match token {
        [b'-', digits @ ..] => digits,
        digits => digits,
    };
    if digits.is_empty() || !digits.iter().all(|byte| byte.is_ascii_digit()) {
        return None;
    }
    match std::str::from_utf8(token).ok()?.parse::<i64>() {
        Ok(_) => Some("an int"),
        Err(_) => Some("a number of more than 64 bits"),
    }
}

// Appends a token that begins no value: a word or a sign in quotes, another character by its number.
fn push_token(text: &mut String, token: &[u8], rest: &[u8]) -> Result<(), AllocError> {
    match std::str::from_utf8(token) {
        Ok(word) => push_quoted(text, word),
        Err(_) => push_character(text, rest),
    }
}

fn push_quoted(text: &mut String, word: &str) -> Result<(), AllocError> {
    text.push_str("here is '")?;
    text.push_str(word.get(..LONGEST).unwrap_or(word))?;
    text.push_str(if word.len() > LONGEST { "..'" } else { "'" })
}

// Appends the character that begins a text.
fn push_character(text: &mut String, rest: &[u8]) -> Result<(), AllocError> {
    let code = std::str::from_utf8(rest)
        .ok()
        .and_then(|rest| rest.chars().next())
        .map_or(0, u32::from);
    write!(text, "here is the character U+{code:04X}")
}
