// Hints for signs of other languages.
use crate::around::Around;
use crate::bits;
use crate::hint::{BitHint, CaseHint, FormHint, Hint, PairHint, SignHint, WordHint};
use crate::need::Need;

/// The hint for a character that is not in the language.
pub fn character_hint(around: &Around) -> Option<Hint> {
    let first = around.rest.first().copied()?;
    match first {
        b'[' | b']' => Some(Hint::Sign(SignHint::Brackets)),
        b'>' => Some(greater_hint(around)),
        b'&' => Some(bits::and_hint(around)),
        b'!' => Some(not_hint(around)),
        b'/' => Some(Hint::Sign(slash_hint(around))),
        b'%' => Some(Hint::Sign(SignHint::Remainder)),
        b'#' => Some(number_sign_hint(around)),
        b';' => Some(semicolon_hint(around)),
        b'@' => Some(Hint::Sign(SignHint::Append)),
        b'^' => Some(Hint::Bits(BitHint::Xor)),
        b'~' => Some(bits::not_hint(around)),
        _ => letter_hint(around, first),
    }
}

// The hint for a `>`, alone or in `>=`, `<>`, `=>`, `|>` and `>>`.
fn greater_hint(around: &Around) -> Hint {
    if around.before.ends_with(b"<") {
        Hint::Sign(SignHint::Unequal)
    } else if around.before.ends_with(b"=") {
        arrow_hint(around)
    } else if around.before.ends_with(b"|") {
        Hint::Form(FormHint::Application)
    } else if around.rest.starts_with(b">>") {
        Hint::Bits(BitHint::Shift)
    } else if around.rest.starts_with(b">=") {
        Hint::Sign(SignHint::AtLeast)
    } else {
        Hint::Sign(SignHint::Greater)
    }
}

// The hint for a `=>`, in `fn x =>` or in a case.
fn arrow_hint(around: &Around) -> Hint {
    if matches!(around.third_last.text, "fn" | "fun") {
        Hint::Form(FormHint::NoValue)
    } else {
        Hint::Case(CaseHint::Arrow)
    }
}

// The hint for a `!`, alone or in `!=`.
fn not_hint(around: &Around) -> Hint {
    if around.rest.starts_with(b"!=") {
        Hint::Sign(SignHint::Unequal)
    } else {
        Hint::Word(WordHint::Not)
    }
}

// The hint for a `/`, alone or at an end of a comment.
fn slash_hint(around: &Around) -> SignHint {
    if around.rest.starts_with(b"//")
        || around.rest.starts_with(b"/*")
        || around.before.ends_with(b"*")
    {
        SignHint::Comment
    } else {
        SignHint::Division
    }
}

// The hint for a `#`, in `#1 p` or before a comment.
fn number_sign_hint(around: &Around) -> Hint {
    match around.rest {
        [_, b'1'..=b'9', ..] => Hint::Pair(PairHint::Apart),
        _ => Hint::Sign(SignHint::Comment),
    }
}

// The hint for a `;`, behind `tick 1` or elsewhere.
fn semicolon_hint(around: &Around) -> Hint {
    if around.second_last.text == "tick" && around.last.is_number() {
        Hint::Form(FormHint::TickIn)
    } else {
        Hint::Sign(SignHint::Semicolon)
    }
}

// The hint for a character that other languages have in words, numbers and texts.
fn letter_hint(around: &Around, first: u8) -> Option<Hint> {
    match first {
        b'_' => Some(Hint::Word(WordHint::Underscore)),
        b'A'..=b'F' if bits::is_in_number(around) => Some(Hint::Bits(BitHint::Decimal)),
        b'A'..=b'Z' => Some(Hint::Word(WordHint::Capital)),
        b'"' | b'\'' | b'`' => Some(Hint::Word(WordHint::Letters)),
        b'\\' => Some(Hint::Form(FormHint::NoValue)),
        b'.' if around.last.is_number() => Some(Hint::Word(WordHint::Fraction)),
        b'{' if around.due == Some(Need::Equal) => Some(Hint::Form(FormHint::Function)),
        0x80.. => Some(Hint::Word(WordHint::Ascii)),
        _ => None,
    }
}

/// The hint for a sign of other languages that reads as two signs here.
pub fn sign_hint(around: &Around) -> Option<Hint> {
    let before = around.before;
    match around.here.text {
        "|" if around.rest.starts_with(b"||") || before.ends_with(b"|") => {
            Some(Hint::Word(WordHint::Or))
        }
        ":" if around.rest.starts_with(b":=") => Some(Hint::Sign(SignHint::Assignment)),
        "=" if before.ends_with(b":") => Some(Hint::Sign(SignHint::Assignment)),
        "-" if before.ends_with(b"<") => Some(Hint::Sign(SignHint::Assignment)),
        "=" if before.ends_with(b"=") => Some(Hint::Sign(SignHint::Equal)),
        "-" if around.rest.starts_with(b"--") || before.ends_with(b"-") => {
            Some(Hint::Sign(SignHint::Comment))
        }
        "+" if before.ends_with(b"+") => Some(Hint::Sign(SignHint::Append)),
        _ => None,
    }
}

/// The hint for a word of other languages.
pub fn word_hint(around: &Around) -> Option<Hint> {
    match around.here.text {
        "and" | "andalso" => Some(Hint::Word(WordHint::And)),
        "or" | "orelse" => Some(Hint::Word(WordHint::Or)),
        "elif" | "elsif" | "elseif" => Some(Hint::Word(WordHint::ElseIf)),
        "end" | "done" | "endif" => Some(Hint::Word(WordHint::End)),
        _ => behind_word_hint(around),
    }
}

// The hint for what stands behind such a word.
fn behind_word_hint(around: &Around) -> Option<Hint> {
    match around.last.text {
        "rec" => Some(Hint::Form(FormHint::Recursion)),
        "fn" | "function" | "lambda" => Some(Hint::Form(FormHint::NoValue)),
        _ => None,
    }
}
