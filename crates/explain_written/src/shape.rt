// Shapes of expressions.
use crate::callee::Callee;
use crate::place::{Place, Rest};
use crate::settled::{Settled, settle};
use raml_syntax::{Expr, Form, Name};

/// Whether a call of this name is written out.
fn is_call_of<'a>(callee: Option<Callee<'a>>, name: &Name, args: &[Expr]) -> bool {
    match callee {
        Some(callee) => callee.is_called(name, args),
        None => false,
    }
}

/// Whether the expression goes over lines: a `let`, an `if`, a `match`, a `tick`, or a call that is written out.
fn is_block<'a>(callee: Option<Callee<'a>>, e: &Expr) -> bool {
    match &e.form {
        Form::Let(..)
        | Form::LetPair(..)
        | Form::If(..)
        | Form::MatchList(..)
        | Form::MatchTree(..)
        | Form::MatchOption(..)
        | Form::Tick(..) => true,
        Form::Call(name, args) => is_call_of(callee, name, args),
        _ => false,
    }
}

/// Whether the expression, and what is done with its value, stands on one line.
pub fn is_short<'s, 'a>(place: Place<'s, 'a>, e: &'a Expr) -> bool {
    match place.rest {
        Rest::Whole => !is_block(place.callee, e),
        Rest::Apart {
            by,
            callee,
            behind,
            ..
        } => match settle(by, None, e) {
            Settled::Empty(body) => matches!(behind, Rest::Whole) && !is_block(callee, body),
            Settled::No | Settled::One(..) | Settled::Two(..) | Settled::Three(..) => false,
        },
    }
}

/// Whether a match may stand at the right end of the expression, or of what is done with its value.
pub fn may_end_in_match<'s, 'a>(place: Place<'s, 'a>, e: &'a Expr) -> bool {
    match place.rest {
        Rest::Whole => ends_in_match(place.callee, e),
        Rest::Apart { .. } => !is_short(place, e),
    }
}

/// Whether a match stands at the right end, or may once calls are written out.
fn ends_in_match<'a>(callee: Option<Callee<'a>>, e: &Expr) -> bool {
    match &e.form {
        Form::MatchList(..) | Form::MatchTree(..) | Form::MatchOption(..) => true,
        Form::Let(_, _, b) | Form::LetPair(_, _, _, b) | Form::If(_, _, b) | Form::Tick(_, b) => {
            ends_in_match(callee, b)
        }
        Form::Call(name, args) => is_call_of(callee, name, args),
        _ => false,
    }
}

/// Whether a value is built at one of the ends, so that a match on it is settled there.
pub fn is_built<'a>(callee: Option<Callee<'a>>, e: &Expr) -> bool {
    match &e.form {
        Form::Nil
        | Form::Leaf
        | Form::Nothing
        | Form::Pair(..)
        | Form::Cons(..)
        | Form::Node(..)
        | Form::Just(_) => true,
        Form::Let(_, _, b) | Form::LetPair(_, _, _, b) | Form::Tick(_, b) | Form::Typed(b, _) =>
            is_built(callee, b),
        Form::If(_, a, b)
        | Form::MatchList(_, a, _, _, b)
        | Form::MatchTree(_, a, _, _, _, b)
        | Form::MatchOption(_, a, _, b) => is_built(callee, a) || is_built(callee, b),
        Form::Call(name, args) => is_call_of(callee, name, args) && gives_built(callee),
        _ => false,
    }
}

/// Whether the function builds its value at one of its ends.
fn gives_built<'a>(callee: Option<Callee<'a>>) -> bool {
    match callee {
        Some(callee) => builds(&callee.fun.body),
        None => false,
    }
}

/// Whether a value is built at one of the ends, where no call is written out.
fn builds(e: &Expr) -> bool {
    match &e.form {
        Form::Nil
        | Form::Leaf
        | Form::Nothing
        | Form::Pair(..)
        | Form::Cons(..)
        | Form::Node(..)
        | Form::Just(_) => true,
        Form::Let(_, _, b) | Form::LetPair(_, _, _, b) | Form::Tick(_, b) | Form::Typed(b, _) =>
            builds(b),
        Form::If(_, a, b)
        | Form::MatchList(_, a, _, _, b)
        | Form::MatchTree(_, a, _, _, _, b)
        | Form::MatchOption(_, a, _, b) => builds(a) || builds(b),
        _ => false,
    }
}

/// Whether its type can only be told from where it stands.
pub fn needs_type(e: &Expr) -> bool {
    match &e.form {
        Form::Nil | Form::Leaf | Form::Nothing => true,
        Form::Pair(a, b) => needs_type(a) || needs_type(b),
        Form::Just(a) | Form::Cons(a, _) | Form::Node(a, _, _) => needs_type(a),
        Form::Let(_, _, b) | Form::LetPair(_, _, _, b) | Form::Tick(_, b) => needs_type(b),
        Form::If(_, a, _)
        | Form::MatchList(_, a, _, _, _)
        | Form::MatchTree(_, a, _, _, _, _)
        | Form::MatchOption(_, a, _, _) => needs_type(a),
        _ => false,
    }
}
