// Hints for tokens that can not stand.
use crate::around::Around;
use crate::bits::bit_hint;
use crate::cases::{arrow_hint, first_case_hint, keyword_hint, pattern_hint};
use crate::hint::{CaseHint, FormHint, Hint, PairHint, SignHint, TypeHint};
use crate::need::{Need, begins_form, begins_operand, is_operator};
use crate::signs::{sign_hint, word_hint};

/// The hint for the token at the place, which can not stand there.
pub fn token_hint(around: &Around) -> Option<Hint> {
    sign_hint(around)
        .or(bit_hint(around))
        .or(word_hint(around))
        .or(need_hint(around))
        .or(operand_hint(around))
}

// The hint by what must come here.
fn need_hint(around: &Around) -> Option<Hint> {
    match around.due? {
        Need::Fun => Some(Hint::Form(FormHint::Function)),
        Need::FunctionName => keyword_hint(around),
        Need::Open => Some(Hint::Form(open_hint(around))),
        Need::ParameterName => parameter_hint(around),
        Need::Colon => Some(Hint::Type(TypeHint::Parameter)),
        Need::ResultColon => Some(Hint::Type(TypeHint::Result)),
        Need::Type => type_hint(around),
        Need::Number => Some(Hint::Form(FormHint::TickNumber)),
        Need::Expression | Need::Operand => expression_hint(around),
        due => part_hint(around, due),
    }
}

// The hint by a part of a form that must come here.
fn part_hint(around: &Around, due: Need) -> Option<Hint> {
    let comma = around.here.text == ",";
    match due {
        Need::Equal => equal_hint(around),
        Need::In => in_hint(around),
        Need::Else => Some(Hint::Form(FormHint::Else)),
        Need::LetClose if comma => Some(Hint::Pair(PairHint::Names)),
        Need::PairClose if comma => Some(Hint::Pair(PairHint::Values)),
        Need::Cases => first_case_hint(around),
        Need::Arrow => arrow_hint(around),
        Need::Bar if begins_operand(around.here) => None,
        Need::Bar | Need::Cons | Need::Node | Need::Just => Some(Hint::Case(CaseHint::Two)),
        Need::Name | Need::Binding => pattern_hint(around),
        _ => None,
    }
}

// The hint for what stands in place of a `(`.
fn open_hint(around: &Around) -> FormHint {
    match around.last.text {
        "some" | "node" => FormHint::Application,
        _ => FormHint::Function,
    }
}

// The hint for what stands in place of a parameter.
fn parameter_hint(around: &Around) -> Option<Hint> {
    match around.here.text {
        ")" if around.last.text == "(" => Some(Hint::Form(FormHint::NoParameter)),
        "(" => Some(Hint::Case(CaseHint::Nested)),
        _ => keyword_hint(around),
    }
}

// The hint for what stands in place of a type.
fn type_hint(around: &Around) -> Option<Hint> {
    match around.here.text {
        "list" | "tree" | "option" => Some(Hint::Type(TypeHint::Order)),
        _ if around.here.is_name() => Some(Hint::Type(TypeHint::Names)),
        _ => None,
    }
}

// The hint for what stands in place of a `=`: behind a function's type, or behind the name of a `let`.
fn equal_hint(around: &Around) -> Option<Hint> {
    match around.here.text {
        "->" => Some(Hint::Form(FormHint::NoValue)),
        _ if around.second_last.text != "let" => None,
        ":" => Some(Hint::Type(TypeHint::Let)),
        "(" => Some(Hint::Form(FormHint::Inner)),
        _ if around.here.is_name() => Some(Hint::Form(FormHint::Inner)),
        _ => None,
    }
}

// The hint for what stands in place of an `in`: behind the number of a `tick`, or in a `let`.
fn in_hint(around: &Around) -> Option<Hint> {
    if around.second_last.text == "tick" {
        Some(Hint::Form(FormHint::TickIn))
    } else if begins_form(around.here) || !around.is_on_line {
        Some(Hint::Form(FormHint::LetIn))
    } else {
        None
    }
}

// The hint for what stands in place of an expression.
fn expression_hint(around: &Around) -> Option<Hint> {
    match around.here.text {
        "-" => Some(Hint::Sign(SignHint::Minus)),
        ")" if around.last.text == "(" => Some(Hint::Form(empty_hint(around))),
        "fun" if matches!(around.last.text, "(" | ",") => Some(Hint::Form(FormHint::NoValue)),
        "fun" => Some(Hint::Form(FormHint::Inner)),
        "int" | "bool" | "list" | "tree" | "option" => keyword_hint(around),
        _ if begins_form(around.here) => Some(Hint::Form(FormHint::Parentheses)),
        _ => None,
    }
}

// The hint for `()`, of a call or by itself.
fn empty_hint(around: &Around) -> FormHint {
    if around.second_last.is_name() {
        FormHint::NoArgument
    } else {
        FormHint::NoUnit
    }
}

// The hint for what stands behind an operand.
fn operand_hint(around: &Around) -> Option<Hint> {
    let here = around.here;
    if !around.behind_operand {
        None
    } else if here.text == "|" {
        Some(Hint::Case(CaseHint::Two))
    } else if here.text == "," && around.due != Some(Need::Close) {
        Some(Hint::Pair(PairHint::Parentheses))
    } else if here.text == "let" {
        Some(Hint::Form(FormHint::Function))
    } else if is_operator(here) {
        Some(Hint::Sign(SignHint::Chain))
    } else if begins_operand(here) && around.is_on_line {
        Some(Hint::Form(FormHint::Application))
    } else {
        None
    }
}
