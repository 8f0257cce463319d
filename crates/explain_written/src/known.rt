// Values of which it is known of what they are built.
use raml_syntax::{Expr, Form, Name};

/// The expression without its annotations.
pub fn bare(e: &Expr) -> &Expr {
    match &e.form {
        Form::Typed(part, _) => bare(part),
        _ => e,
    }
}

/// The variable that an expression is, annotations aside.
pub fn variable(e: &Expr) -> Option<&Name> {
    match &e.form {
        Form::Var(name) => Some(name),
        Form::Typed(part, _) => variable(part),
        _ => None,
    }
}

/// Whether it is known of what the value is built: of variables, literals, and values of which that is known.
pub fn is_known(e: &Expr) -> bool {
    !is_variable_or_literal(e) && is_plain(e)
}

/// Whether the value is an empty list, tree or option.
pub fn is_empty(e: &Expr) -> bool {
    matches!(&bare(e).form, Form::Nil | Form::Leaf | Form::Nothing)
}

fn is_variable_or_literal(e: &Expr) -> bool {
    matches!(
        &bare(e).form,
        Form::Var(_) | Form::Number(_) | Form::Truth(_)
    )
}

/// Whether nothing but variables and literals is put together.
fn is_plain(e: &Expr) -> bool {
    match &e.form {
        Form::Var(_) | Form::Number(_) | Form::Truth(_) | Form::Nil | Form::Leaf | Form::Nothing =>
            true,
        Form::Just(a) | Form::Typed(a, _) => is_plain(a),
        Form::Pair(a, b) | Form::Cons(a, b) => is_plain(a) && is_plain(b),
        Form::Node(a, b, c) => is_plain(a) && is_plain(b) && is_plain(c),
        _ => false,
    }
}
