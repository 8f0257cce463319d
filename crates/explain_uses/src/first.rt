// First uses of variables in expressions.
ghost use Rattle.std.specs.Prelude.{◌≡◌};
ghost use Rattle.std.specs.Option.{option_or};
ghost use Rattle.raml_syntax.specs.Read.{term_of, terms_of};
ghost use Rattle.explain_uses.specs.Before as b;
ghost use Rattle.explain_uses.specs.Read.{byte_of};

use raml_syntax::{Binder, Expr, Form, Pos};

/// The first of both that there is.
pub fn either(first: Option<Pos>, second: Option<Pos>) -> Option<Pos>
    ensures { byte_of result ≡ option_or (byte_of first) (byte_of second) }
{
    match first {
        Some(at) => Some(at),
        None => second,
    }
}

/// Of what is found of a variable, what is left where a name is bound.
pub fn unless_named(variable: &str, name: &str, found: Option<Pos>) -> Option<Pos>
    ensures { byte_of result ≡ b.unless_named variable.now name.now (byte_of found) }
{
    if variable == name { None } else { found }
}

/// The same where a binder stands.
fn unless_bound(variable: &str, binder: &Binder, found: Option<Pos>) -> Option<Pos>
    ensures { byte_of result ≡ b.unless_named variable.now binder.now.name (byte_of found) }
{
    unless_named(variable, binder.name.text(), found)
}

/// The first use of a variable in an expression, on whatever path.
#[cycle(first_use)]
pub fn first_use(variable: &str, e: &Expr) -> Option<Pos>
    ensures { byte_of result ≡ b.first_use variable.now (term_of e.now) }
{
    match &e.form {
        Form::Number(_) | Form::Truth(_) | Form::Nil | Form::Leaf | Form::Nothing => None,
        Form::Var(name) => {
            if variable == name.text() {
                Some(e.at)
            } else {
                None
            }
        }
        Form::Not(a) | Form::Just(a) | Form::Tick(_, a) | Form::Typed(a, _) => {
            first_use(variable, a)
        }
        Form::Arith(_, a, b) | Form::Compare(_, a, b) | Form::Pair(a, b) | Form::Cons(a, b) => {
            either(first_use(variable, a), first_use(variable, b))
        }
        Form::Node(a, b, c) | Form::If(a, b, c) => {
            let later = either(first_use(variable, b), first_use(variable, c));
            either(first_use(variable, a), later)
        }
        Form::Call(_, args) => first_use_of_all(variable, args),
        Form::Let(x, bound, rest) => {
            let inner = unless_bound(variable, x, first_use(variable, rest));
            either(first_use(variable, bound), inner)
        }
        Form::LetPair(x, y, subject, rest) => {
            let inner = unless_bound(variable, y, first_use(variable, rest));
            either(
                first_use(variable, subject),
                unless_bound(variable, x, inner),
            )
        }
        Form::MatchList(subject, empty, x, y, rest) => {
            let inner = unless_bound(variable, y, first_use(variable, rest));
            first_of_match(variable, subject, empty, unless_bound(variable, x, inner))
        }
        Form::MatchTree(subject, empty, x, y, z, rest) => {
            let inner = unless_bound(variable, z, first_use(variable, rest));
            let inner = unless_bound(variable, y, inner);
            first_of_match(variable, subject, empty, unless_bound(variable, x, inner))
        }
        Form::MatchOption(subject, empty, x, rest) => {
            let inner = unless_bound(variable, x, first_use(variable, rest));
            first_of_match(variable, subject, empty, inner)
        }
    }
}

/// The first use in a match, where that in its last branch is given.
#[cycle(first_use)]
fn first_of_match(variable: &str, subject: &Expr, empty: &Expr, rest: Option<Pos>) -> Option<Pos>
    ensures { byte_of result ≡ option_or (b.first_use variable.now (term_of subject.now))
        (option_or (b.first_use variable.now (term_of empty.now)) (byte_of rest)) }
{
    let in_branches = either(first_use(variable, empty), rest);
    either(first_use(variable, subject), in_branches)
}

/// The first use in arguments.
#[cycle(first_use)]
fn first_use_of_all(variable: &str, args: &[Expr]) -> Option<Pos>
    ensures { byte_of result ≡ b.first_use_of_all variable.now (terms_of args.now) }
{
    match args {
        [] => None,
        [arg, rest @ ..] => either(first_use(variable, arg), first_use_of_all(variable, rest)),
    }
}
