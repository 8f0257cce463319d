// What stands at the front of a text: white space, a comment, a token or a fault.
ghost use Rattle.std.specs.Prelude.{◌≡◌, ◌<◌, ◌≤◌, ◌^◌, true, false, length, MatchOption, MatchResult, SomeIff, slice_index};
ghost use Rattle.std.specs.List.{prefix_len};
ghost use Rattle.raml_lex.specs.Lexemes.{is_space, is_lower, is_digit, is_name_part, number_value};
ghost use Rattle.raml_lex.specs.Lexing.{OpensComment, IsOpenComment};
ghost use Rattle.raml_lex.specs.Pieces.{BeginsWith, BeginsWithGap, FaultAt, symbol_len, word_kind};

use crate::token::{LexFault, TokenKind};
use raml_syntax::Pos;

/// What stands at the front of a text, with its number of bytes.
#[derive(Clone, Copy, PartialEq, Eq, Debug)]
pub enum Piece {
    /// One byte of white space, or a comment.
    Gap(usize),
    /// A token of this kind.
    Word(TokenKind, usize),
}

const KEYWORDS: [&[u8]; 24] = [
    b"fun", b"let", b"in", b"if", b"then", b"else", b"match", b"with", b"nil", b"leaf", b"node",
    b"true", b"false", b"not", b"tick", b"div", b"mod", b"int", b"bool", b"list", b"tree",
    b"option", b"none", b"some",
];

fn is_space(byte: u8) -> bool
    ensures { result ≡ is_space byte }
{
    matches!(byte, b' ' | b'\t' | b'\n' | b'\r')
}

fn is_lower(byte: u8) -> bool
    ensures { result ≡ is_lower byte }
{
    matches!(byte, b'a'..=b'z')
}

fn is_digit(byte: u8) -> bool
    ensures { result ≡ is_digit byte }
{
    matches!(byte, b'0'..=b'9')
}

fn is_name_part(byte: u8) -> bool
    ensures { result ≡ is_name_part byte }
{
    matches!(byte, b'a'..=b'z' | b'A'..=b'Z' | b'0'..=b'9' | b'_' | b'\'')
}

// How many bytes at the front may stand in a name.
fn name_len(text: &[u8]) -> usize
    ensures { result ≡ prefix_len is_name_part text.now }
{
    text.iter()
        .position(|byte| !is_name_part(*byte))
        .unwrap_or(text.len())
}

// How many bytes at the front are digits.
fn digits_len(text: &[u8]) -> usize
    ensures { result ≡ prefix_len is_digit text.now }
{
    text.iter()
        .position(|byte| !is_digit(*byte))
        .unwrap_or(text.len())
}

// The length of the longest symbol at the front, if there is one.
fn symbol_len(text: &[u8]) -> Option<usize>
    requires { 0 < length text.now }
    ensures { result ≡ symbol_len text.now }
{
    if text.starts_with(b"::") || text.starts_with(b"<=") || text.starts_with(b"->") {
        Some(2)
    } else if b"(),:=<+-*|".contains(&text[0]) {
        Some(1)
    } else {
        None
    }
}

// The length of the comment that begins the text, if it has an end.
fn comment_len(text: &[u8]) -> Option<usize>
    requires { OpensComment text.now }
    ensures { MatchOption result (IsOpenComment text.now) (BeginsWithGap text.now) }
{
    let mut depth: usize = 1;
    let mut len = 2;
    while depth > 0 {
        let rest = &text[len..];
        if rest.starts_with(b"(*") {
            depth += 1;
            len += 2;
        } else if rest.starts_with(b"*)") {
            depth -= 1;
            len += 2;
        } else if rest.is_empty() {
            return None;
        } else {
            len += 1;
        }
    }
    Some(len)
}

fn word_kind(word: &[u8]) -> TokenKind
    ensures { result ≡ word_kind word.now }
{
    if KEYWORDS.contains(&word) {
        TokenKind::Keyword
    } else {
        TokenKind::Name
    }
}

/// The value of decimal digits, where it is at most 9223372036854775807.
pub fn number_value(digits: &[u8]) -> Option<u64>
    ensures { SomeIff result (number_value digits.now < 2 ^ 63) (number_value digits.now) }
{
    let mut value: u128 = 0;
    for digit in digits {
        value = value * 10 + u128::from(digit.saturating_sub(b'0'));
        if value > i64::MAX as u128 {
            return None;
        }
    }
    Some(value as u64)
}

fn word(text: &[u8]) -> Piece
    requires { is_lower (slice_index text.now 0) ≡ true }
    ensures { BeginsWith text.now result }
{
    let len = name_len(text);
    Piece::Word(word_kind(&text[..len]), len)
}

fn number(text: &[u8], at: Pos) -> Result<Piece, LexFault>
    requires { is_digit (slice_index text.now 0) ≡ true }
    ensures { MatchResult result (BeginsWith text.now) (FaultAt at text.now) }
{
    let len = digits_len(text);
    match number_value(&text[..len]) {
        Some(_) => Ok(Piece::Word(TokenKind::Number, len)),
        None => Err(LexFault::NumberTooWide { at }),
    }
}

fn comment(text: &[u8], at: Pos) -> Result<Piece, LexFault>
    requires { OpensComment text.now }
    ensures { MatchResult result (BeginsWith text.now) (FaultAt at text.now) }
{
    match comment_len(text) {
        Some(len) => Ok(Piece::Gap(len)),
        None => Err(LexFault::OpenComment { at }),
    }
}

fn symbol(text: &[u8], at: Pos) -> Result<Piece, LexFault>
    requires some { 0 < length text.now }
    requires no_space { is_space (slice_index text.now 0) ≡ false }
    requires no_name { is_lower (slice_index text.now 0) ≡ false }
    requires no_number { is_digit (slice_index text.now 0) ≡ false }
    requires no_comment { ¬ (OpensComment text.now) }
    ensures { MatchResult result (BeginsWith text.now) (FaultAt at text.now) }
{
    match symbol_len(text) {
        Some(len) => Ok(Piece::Word(TokenKind::Symbol, len)),
        None => Err(LexFault::BadChar { at }),
    }
}

/// What stands at the front of the text, which begins at `at`.
pub fn first_piece(text: &[u8], at: Pos) -> Result<Piece, LexFault>
    requires { 0 < length text.now }
    ensures { MatchResult result (BeginsWith text.now) (FaultAt at text.now) }
{
    let first = text[0];
    if is_space(first) {
        Ok(Piece::Gap(1))
    } else if is_lower(first) {
        Ok(word(text))
    } else if is_digit(first) {
        number(text, at)
    } else if text.starts_with(b"(*") {
        comment(text, at)
    } else {
        symbol(text, at)
    }
}
