// Hints for the cases of a `match` and for patterns.
use crate::around::Around;
use crate::hint::{CaseHint, FormHint, Hint, WordHint};

/// The hint for what stands in place of a first case.
pub fn first_case_hint(around: &Around) -> Option<Hint> {
    let here = around.here;
    match here.text {
        "|" => Some(Hint::Case(CaseHint::NoBar)),
        "some" => Some(Hint::Case(CaseHint::NoneFirst)),
        "node" => Some(Hint::Case(CaseHint::LeafFirst)),
        "true" | "false" | "(" => Some(Hint::Case(CaseHint::Subject)),
        _ if here.is_number() => Some(Hint::Case(CaseHint::Subject)),
        _ if here.is_name() && around.next.text == "::" => Some(Hint::Case(CaseHint::NilFirst)),
        _ if here.is_name() => Some(Hint::Case(CaseHint::Two)),
        _ => None,
    }
}

/// The hint for what stands in place of a `->`.
pub fn arrow_hint(around: &Around) -> Option<Hint> {
    match around.here.text {
        "=" => Some(Hint::Case(CaseHint::Arrow)),
        "::" => Some(Hint::Case(CaseHint::Nested)),
        _ => None,
    }
}

/// The hint for what stands in place of a name in a pattern.
pub fn pattern_hint(around: &Around) -> Option<Hint> {
    let here = around.here;
    if around.last.text == "|" {
        Some(Hint::Case(if here.text == "(" {
            CaseHint::Nested
        } else {
            CaseHint::Two
        }))
    } else if here.text == ")" && around.last.text == "(" {
        Some(Hint::Form(FormHint::NoUnit))
    } else if here.text == "(" || here.is_number() {
        Some(Hint::Case(CaseHint::Nested))
    } else {
        keyword_hint(around)
    }
}

/// The hint for a keyword in place of a name.
pub fn keyword_hint(around: &Around) -> Option<Hint> {
    if around.here.is_keyword() {
        Some(Hint::Word(WordHint::Keyword))
    } else {
        None
    }
}
