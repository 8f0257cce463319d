// Hints for operators on bits, and for numbers that are not decimal.
use crate::around::Around;
use crate::hint::{BitHint, Hint, SignHint, WordHint};

/// The hint for a token that is an operator on bits in other languages, or a part of a number that is not decimal.
pub fn bit_hint(around: &Around) -> Option<Hint> {
    let hint = match around.here.text {
        "<" if around.before.ends_with(b"<") => BitHint::Shift,
        "land" => BitHint::And,
        "lor" => BitHint::Or,
        "xor" | "lxor" => BitHint::Xor,
        "lnot" => BitHint::Not,
        "lsl" | "lsr" | "asr" | "shl" | "shr" => BitHint::Shift,
        _ if begins_number(around) => BitHint::Decimal,
        _ => return None,
    };
    Some(Hint::Bits(hint))
}

// Whether a number that is not decimal begins with the `0` before the place, as `0xff` and `0b11`.
fn begins_number(around: &Around) -> bool {
    around.last.text == "0"
        && around.before.ends_with(b"0")
        && matches!(around.rest, [b'x' | b'b' | b'o', ..])
}

/// Whether the place is in such a number, behind its first letter.
pub fn is_in_number(around: &Around) -> bool {
    around.second_last.text == "0" && around.last.text.starts_with('x')
}

/// The hint for a `&`, alone or in `&&`.
pub fn and_hint(around: &Around) -> Hint {
    if around.rest.starts_with(b"&&") || around.before.ends_with(b"&") {
        Hint::Word(WordHint::And)
    } else {
        Hint::Bits(BitHint::And)
    }
}

/// The hint for a `~`, before a number or elsewhere.
pub fn not_hint(around: &Around) -> Hint {
    match around.rest {
        [_, b'0'..=b'9', ..] => Hint::Sign(SignHint::Minus),
        _ => Hint::Bits(BitHint::Not),
    }
}
