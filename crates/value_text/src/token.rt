// The tokens of data.
ghost use Rattle.std.specs.Prelude.{◌≡◌, ◌≢◌, ◌≤◌, ◌∷◌, [], ℕ, MatchBool, MatchOption, true, length, take, drop};
ghost use Rattle.std.specs.List.{prefix_len, AllPass};
ghost use Rattle.raml_lex.specs.Lexemes.{is_digit, is_name_part, number_value};
ghost use Rattle.value_text.specs.Spelling.{Key};
ghost use Rattle.value_text.specs.Lexing.{placed, begun_by, word_token, symbol_token, number_token, minus_token, minus_by};
ghost use Rattle.value_text.specs.Tokens.{token_of, IsMagnitude, IsSolid, IsNext};

use crate::sign::Sign;

/// A token.
#[derive(Clone, Copy, PartialEq, Eq, Debug)]
pub enum Token {
    Sign(Sign),
    Number(i64),
    Truth(bool),
    /// What no data holds.
    Other,
}

/// The magnitude of the least integer.
const MOST_MAGNITUDE: u128 = 9223372036854775808;

impl Token {
    /// Whether the token is this sign.
    pub fn is_sign(self, sign: Sign) -> bool
        ensures { MatchBool result (token_of self ≡ Key sign) (token_of self ≢ Key sign) }
    {
        match self {
            Token::Sign(found) => found == sign,
            Token::Number(_) | Token::Truth(_) | Token::Other => false,
        }
    }
}

// How many bytes at the front may stand in a name.
fn name_len(text: &[u8]) -> usize
    ensures { (result ≡ prefix_len is_name_part text.now) × (result ≤ length text.now) }
{
    text.iter()
        .position(|byte| !matches!(byte, b'a'..=b'z' | b'A'..=b'Z' | b'0'..=b'9' | b'_' | b'\''))
        .unwrap_or(text.len())
}

// How many bytes at the front are digits.
fn digits_len(text: &[u8]) -> usize
    ensures { (result ≡ prefix_len is_digit text.now) × (result ≤ length text.now) }
{
    text.iter()
        .position(|byte| !byte.is_ascii_digit())
        .unwrap_or(text.len())
}

// The text from the first token on.
fn skip(text: &[u8]) -> &[u8]
    ensures tokens { placed result.now ≡ placed text.now }
    ensures solid { IsSolid result.now }
    ensures less { length result.now ≤ length text.now }
{
    let mut rest = text;
    while let [first, tail @ ..] = rest {
        if !matches!(first, b' ' | b'\t' | b'\n' | b'\r') {
            return rest;
        }
        rest = tail;
    }
    rest
}

// The value of digits, if it is at most 9223372036854775808.
fn digits_value(digits: &[u8]) -> Option<u128>
    requires { AllPass is_digit digits.now }
    ensures { IsMagnitude (number_value digits.now) result }
{
    let mut value: u128 = 0;
    for digit in digits {
        value = value * 10 + u128::from(digit - b'0');
        if value > MOST_MAGNITUDE {
            return None;
        }
    }
    Some(value)
}

fn word_token(word: &[u8]) -> Token
    ensures { token_of result ≡ word_token word.now }
{
    match word {
        b"leaf" => Token::Sign(Sign::Leaf),
        b"node" => Token::Sign(Sign::Node),
        b"none" => Token::Sign(Sign::Nothing),
        b"some" => Token::Sign(Sign::Just),
        b"true" => Token::Truth(true),
        b"false" => Token::Truth(false),
        _ => Token::Other,
    }
}

fn symbol_token(byte: u8) -> Token
    ensures { token_of result ≡ symbol_token byte }
{
    match byte {
        b'(' => Token::Sign(Sign::Open),
        b')' => Token::Sign(Sign::Close),
        b',' => Token::Sign(Sign::Comma),
        b'[' => Token::Sign(Sign::OpenList),
        b']' => Token::Sign(Sign::CloseList),
        _ => Token::Other,
    }
}

// The token that begins with a small letter, and the text behind it.
fn word<'a>(text: &'a [u8], rest: &'a [u8]) -> (Token, &'a [u8])
    requires { (c : ℕ) × (text.now ≡ c ∷ rest.now) }
    ensures token { (c : ℕ) → text.now ≡ c ∷ rest.now →
        token_of result.0 ≡ word_token (c ∷ take (prefix_len is_name_part rest.now) rest.now) }
    ensures rest { result.1.now ≡ drop (prefix_len is_name_part rest.now) rest.now }
{
    let behind = &rest[name_len(rest)..];
    (word_token(&text[..text.len() - behind.len()]), behind)
}

fn positive(value: Option<u128>) -> Token
    ensures { (n : ℕ) → IsMagnitude n value → token_of result ≡ number_token n }
{
    match value {
        Some(n) => if n < MOST_MAGNITUDE {
            Token::Number(n as i64)
        } else {
            Token::Other
        },
        None => Token::Other,
    }
}

fn negative(value: Option<u128>) -> Token
    ensures { (n : ℕ) → IsMagnitude n value → token_of result ≡ minus_token n }
{
    match value {
        Some(n) => if n < MOST_MAGNITUDE {
            Token::Number(-(n as i64))
        } else if n == MOST_MAGNITUDE {
            Token::Number(i64::MIN)
        } else {
            Token::Other
        },
        None => Token::Other,
    }
}

// The token that begins with a digit.
fn number<'a>(text: &'a [u8], rest: &'a [u8]) -> (Token, &'a [u8])
    requires { (c : ℕ) × (text.now ≡ c ∷ rest.now) × (is_digit c ≡ true) }
    ensures token { (c : ℕ) → text.now ≡ c ∷ rest.now →
        token_of result.0 ≡ number_token (number_value (c ∷ take (prefix_len is_digit rest.now) rest.now)) }
    ensures rest { result.1.now ≡ drop (prefix_len is_digit rest.now) rest.now }
{
    let behind = &rest[digits_len(rest)..];
    (
        positive(digits_value(&text[..text.len() - behind.len()])),
        behind,
    )
}

// The token that begins with `-`, behind which the text goes on.
fn minus(rest: &[u8]) -> (Token, &[u8])
    ensures token { token_of result.0 ≡ (minus_by rest.now (prefix_len is_digit rest.now)).0 }
    ensures rest { result.1.now ≡ drop (minus_by rest.now (prefix_len is_digit rest.now)).1 rest.now }
{
    let len = digits_len(rest);
    if len == 0 {
        return (Token::Other, rest);
    }
    (negative(digits_value(&rest[..len])), &rest[len..])
}

// The token that begins with the first byte, and the text behind it.
fn first_token<'a>(text: &'a [u8], first: u8, rest: &'a [u8]) -> (Token, &'a [u8])
    requires { text.now ≡ first ∷ rest.now }
    ensures token { token_of result.0 ≡ (begun_by first rest.now).0 }
    ensures rest { result.1.now ≡ drop (begun_by first rest.now).1 rest.now }
{
    match first {
        b'a'..=b'z' => word(text, rest),
        b'0'..=b'9' => number(text, rest),
        b'-' => minus(rest),
        _ => (symbol_token(first), rest),
    }
}

/// The first token of a text, how many bytes there are from it on, and the text behind it.
pub fn next(text: &[u8]) -> Option<(Token, usize, &[u8])>
    ensures { MatchOption result (placed text.now ≡ []) (λ x. IsNext text.now x.0 x.1 x.2.now) }
{
    let text = skip(text);
    match text {
        [] => None,
        [first, rest @ ..] => {
            let (token, behind) = first_token(text, *first, rest);
            Some((token, text.len(), behind))
        }
    }
}
