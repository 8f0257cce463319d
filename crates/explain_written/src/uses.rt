// Uses of variables whose values are built of known parts.
use crate::known::{is_empty, variable};
use raml_syntax::{Binder, Expr, Form, Name};

/// A name, and whether its value is an empty list, tree or option.
#[derive(Clone, Copy)]
pub struct KnownName<'a> {
    pub name: &'a Name,
    pub is_empty: bool,
}

/// The name of a value.
pub fn known_name<'a>(name: &'a Name, value: &Expr) -> KnownName<'a> {
    KnownName {
        name,
        is_empty: is_empty(value),
    }
}

impl<'a> KnownName<'a> {
    fn is(self, name: &Name) -> bool {
        self.name.text() == name.text()
    }

    /// Whether the expression is the variable, annotations aside.
    fn is_variable(self, e: &Expr) -> bool {
        match variable(e) {
            Some(name) => self.is(name),
            None => false,
        }
    }

    /// Whether one of the names hides it.
    fn is_hidden(self, names: &[&Binder]) -> bool {
        for binder in names {
            if self.is(&binder.name) {
                return true;
            }
        }
        false
    }
}

/// Whether the expression uses the variable other than as what is taken apart, which it does in the branch that is taken.
#[cycle(uses)]
pub fn is_used_whole<'a>(x: KnownName<'a>, e: &Expr) -> bool {
    match &e.form {
        Form::Number(_) | Form::Truth(_) | Form::Nil | Form::Leaf | Form::Nothing => false,
        Form::Var(name) => x.is(name),
        Form::Not(a) | Form::Just(a) | Form::Tick(_, a) | Form::Typed(a, _) => is_used_whole(x, a),
        Form::Arith(_, a, b) | Form::Compare(_, a, b) | Form::Pair(a, b) | Form::Cons(a, b) => {
            is_used_whole(x, a) || is_used_whole(x, b)
        }
        Form::Node(a, b, c) | Form::If(a, b, c) => {
            is_used_whole(x, a) || is_used_whole(x, b) || is_used_whole(x, c)
        }
        Form::Call(_, args) => is_used_in_some(x, args),
        Form::Let(y, a, b) => is_used_whole(x, a) || is_used_below(x, &[y], b),
        Form::LetPair(y, z, a, b) => is_used_where_split(x, a, &[y, z], b),
        Form::MatchList(c, a, y, z, b) => is_used_in_match(x, c, a, &[y, z], b),
        Form::MatchTree(c, a, y, z, w, b) => is_used_in_match(x, c, a, &[y, z, w], b),
        Form::MatchOption(c, a, y, b) => is_used_in_match(x, c, a, &[y], b),
    }
}

#[cycle(uses)]
fn is_used_in_some<'a>(x: KnownName<'a>, args: &[Expr]) -> bool {
    for arg in args {
        if is_used_whole(x, arg) {
            return true;
        }
    }
    false
}

/// Whether it is used where these names are bound.
#[cycle(uses)]
fn is_used_below<'a>(x: KnownName<'a>, names: &[&Binder], e: &Expr) -> bool {
    !x.is_hidden(names) && is_used_whole(x, e)
}

#[cycle(uses)]
fn is_used_where_split<'a>(
    x: KnownName<'a>,
    subject: &Expr,
    names: &[&Binder],
    body: &Expr,
) -> bool {
    if !x.is_variable(subject) && is_used_whole(x, subject) {
        return true;
    }
    is_used_below(x, names, body)
}

#[cycle(uses)]
fn is_used_in_match<'a>(
    x: KnownName<'a>,
    subject: &Expr,
    empty: &Expr,
    names: &[&Binder],
    body: &Expr,
) -> bool {
    if !x.is_variable(subject) {
        is_used_whole(x, subject) || is_used_whole(x, empty) || is_used_below(x, names, body)
    } else if x.is_empty {
        is_used_whole(x, empty)
    } else {
        is_used_below(x, names, body)
    }
}
