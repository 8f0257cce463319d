// The names in expressions.
ghost use Rattle.std.specs.Prelude.{◌≡◌, ◌++◌, [], ◌∷◌, OnOk};
ghost use Rattle.raml_syntax.specs.Read.{bound_of, term_of, terms_of};
ghost use Rattle.explain_scopes.specs.Scopes.{binds, means, names_in, names_in_all, variable};
ghost use Rattle.explain_scopes.specs.Scopes as s;
ghost use Rattle.explain_scopes.specs.Read as r;
ghost use Rattle.explain_scopes.specs.Read.{bounds_of, occurrences_of, scope_of};
ghost use Rattle.explain_scopes.specs.declared.occurrence.Kind.TheVariants as k;

use crate::occurrence::{Bound, Kind, Occurrence};
use crate::scope::{Env, Scope, find_function};
use raml_syntax::{Binder, Expr, Form, Name, Pos};
use std::alloc::AllocError;

/// Adds a variable that stands where it is bound.
fn push_binder<'a>(found: &mut Vec<Occurrence<'a>>, binder: &'a Binder) -> Result<(), AllocError>
    ensures { OnOk result (occurrences_of found.new.items ≡ occurrences_of found.old.items ++ (variable (bound_of binder.now) ∷ [])) }
{
    found.push(Bound::binder(binder).occurrence(Kind::Variable))?;
    Ok(())
}

/// Adds a variable that is used.
fn push_variable<'s, 'a>(
    found: &mut Vec<Occurrence<'a>>,
    env: Env<'s, 'a>,
    at: Pos,
    name: &'a Name,
) -> Result<(), AllocError>
    ensures { OnOk result (occurrences_of found.new.items
        ≡ occurrences_of found.old.items ++ (means k.Variable (scope_of env.entry.scope.now) at.0 name.now ∷ [])) }
{
    let binding = env.scope.find(name.text());
    found.push(Occurrence {
        at,
        name,
        kind: Kind::Variable,
        binding,
    })?;
    Ok(())
}

/// Adds a function that is called.
fn push_function<'s, 'a>(
    found: &mut Vec<Occurrence<'a>>,
    env: Env<'s, 'a>,
    at: Pos,
    name: &'a Name,
) -> Result<(), AllocError>
    ensures { OnOk result (occurrences_of found.new.items
        ≡ occurrences_of found.old.items ++ (means k.Function (bounds_of env.entry.functions.now) at.0 name.now ∷ [])) }
{
    let binding = find_function(env.functions, name.text());
    found.push(Occurrence {
        at,
        name,
        kind: Kind::Function,
        binding,
    })?;
    Ok(())
}

/// Adds the names in an expression.
#[cycle(push_names)]
pub fn push_names<'s, 'a>(
    found: &mut Vec<Occurrence<'a>>,
    env: Env<'s, 'a>,
    e: &'a Expr,
) -> Result<(), AllocError>
    ensures { OnOk result (occurrences_of found.new.items
        ≡ occurrences_of found.old.items ++ names_in (bounds_of env.entry.functions.now) (scope_of env.entry.scope.now) (term_of e.now)) }
{
    match &e.form {
        Form::Number(_) | Form::Truth(_) | Form::Nil | Form::Leaf | Form::Nothing => Ok(()),
        Form::Var(name) => push_variable(found, env, e.at, name),
        Form::Not(a) => push_names(found, env, a),
        Form::Just(a) => push_names(found, env, a),
        Form::Tick(_, a) => push_names(found, env, a),
        Form::Typed(a, _) => push_names(found, env, a),
        Form::Arith(_, a, b) => push_two(found, env, a, b),
        Form::Compare(_, a, b) => push_two(found, env, a, b),
        Form::Pair(a, b) => push_two(found, env, a, b),
        Form::Cons(a, b) => push_two(found, env, a, b),
        Form::Node(a, b, c) => push_three(found, env, a, b, c),
        Form::If(c, a, b) => push_three(found, env, c, a, b),
        Form::Call(name, args) => push_call(found, env, e.at, name, args),
        Form::Let(x, a, b) => push_let(found, env, x, a, b),
        Form::LetPair(x, y, a, b) => push_let_pair(found, env, x, y, a, b),
        Form::MatchList(c, a, x, y, b) => push_list(found, env, c, a, x, y, b),
        Form::MatchTree(c, a, x, y, z, b) => push_tree(found, env, c, a, x, y, z, b),
        Form::MatchOption(c, a, x, b) => push_option(found, env, c, a, x, b),
    }
}

/// Adds those in two parts.
#[cycle(push_names)]
fn push_two<'s, 'a>(
    found: &mut Vec<Occurrence<'a>>,
    env: Env<'s, 'a>,
    first: &'a Expr,
    second: &'a Expr,
) -> Result<(), AllocError>
    ensures { OnOk result (occurrences_of found.new.items
        ≡ occurrences_of found.old.items
        ++ (names_in (bounds_of env.entry.functions.now) (scope_of env.entry.scope.now) (term_of first.now)
        ++ names_in (bounds_of env.entry.functions.now) (scope_of env.entry.scope.now) (term_of second.now))) }
{
    push_names(found, env, first)?;
    push_names(found, env, second)
}

/// Adds those in three parts.
#[cycle(push_names)]
fn push_three<'s, 'a>(
    found: &mut Vec<Occurrence<'a>>,
    env: Env<'s, 'a>,
    first: &'a Expr,
    second: &'a Expr,
    third: &'a Expr,
) -> Result<(), AllocError>
    ensures { OnOk result (occurrences_of found.new.items
        ≡ occurrences_of found.old.items
        ++ (names_in (bounds_of env.entry.functions.now) (scope_of env.entry.scope.now) (term_of first.now)
        ++ (names_in (bounds_of env.entry.functions.now) (scope_of env.entry.scope.now) (term_of second.now)
        ++ names_in (bounds_of env.entry.functions.now) (scope_of env.entry.scope.now) (term_of third.now)))) }
{
    push_names(found, env, first)?;
    push_two(found, env, second, third)
}

/// Adds those in a call.
#[cycle(push_names)]
fn push_call<'s, 'a>(
    found: &mut Vec<Occurrence<'a>>,
    env: Env<'s, 'a>,
    at: Pos,
    name: &'a Name,
    args: &'a [Expr],
) -> Result<(), AllocError>
    ensures { OnOk result (occurrences_of found.new.items
        ≡ occurrences_of found.old.items
        ++ (means k.Function (bounds_of env.entry.functions.now) at.0 name.now
        ∷ names_in_all (bounds_of env.entry.functions.now) (scope_of env.entry.scope.now) (terms_of args.now))) }
{
    push_function(found, env, at, name)?;
    push_all(found, env, args)
}

#[cycle(push_names)]
fn push_all<'s, 'a>(
    found: &mut Vec<Occurrence<'a>>,
    env: Env<'s, 'a>,
    args: &'a [Expr],
) -> Result<(), AllocError>
    ensures { OnOk result (occurrences_of found.new.items
        ≡ occurrences_of found.old.items
        ++ names_in_all (bounds_of env.entry.functions.now) (scope_of env.entry.scope.now) (terms_of args.now)) }
{
    for arg in args {
        push_names(found, env, arg)?;
    }
    Ok(())
}

/// Adds those in an expression below one more variable.
#[cycle(push_names)]
fn push_below<'s, 'a>(
    found: &mut Vec<Occurrence<'a>>,
    env: Env<'s, 'a>,
    x: &'a Binder,
    e: &'a Expr,
) -> Result<(), AllocError>
    ensures { OnOk result (occurrences_of found.new.items
        ≡ occurrences_of found.old.items
        ++ names_in (bounds_of env.entry.functions.now) (bound_of x.now ∷ scope_of env.entry.scope.now) (term_of e.now)) }
{
    let scope = Scope::More {
        newest: Bound::binder(x),
        outer: env.scope,
    };
    let functions = env.functions;
    push_names(
        found,
        Env {
            functions,
            scope: &scope,
        },
        e,
    )
}

/// Adds those in an expression below two more variables, of which the second is the newer.
#[cycle(push_names)]
fn push_below_two<'s, 'a>(
    found: &mut Vec<Occurrence<'a>>,
    env: Env<'s, 'a>,
    x: &'a Binder,
    y: &'a Binder,
    e: &'a Expr,
) -> Result<(), AllocError>
    ensures { OnOk result (occurrences_of found.new.items
        ≡ occurrences_of found.old.items
        ++ names_in (bounds_of env.entry.functions.now) (bound_of y.now ∷ bound_of x.now ∷ scope_of env.entry.scope.now) (term_of e.now)) }
{
    let scope = Scope::More {
        newest: Bound::binder(x),
        outer: env.scope,
    };
    let functions = env.functions;
    push_below(
        found,
        Env {
            functions,
            scope: &scope,
        },
        y,
        e,
    )
}

/// Adds those in an expression below three more variables, of which the third is the newest.
#[cycle(push_names)]
fn push_below_three<'s, 'a>(
    found: &mut Vec<Occurrence<'a>>,
    env: Env<'s, 'a>,
    x: &'a Binder,
    y: &'a Binder,
    z: &'a Binder,
    e: &'a Expr,
) -> Result<(), AllocError>
    ensures { OnOk result (occurrences_of found.new.items
        ≡ occurrences_of found.old.items
        ++ names_in (bounds_of env.entry.functions.now)
        (bound_of z.now ∷ bound_of y.now ∷ bound_of x.now ∷ scope_of env.entry.scope.now) (term_of e.now)) }
{
    let scope = Scope::More {
        newest: Bound::binder(x),
        outer: env.scope,
    };
    let functions = env.functions;
    push_below_two(
        found,
        Env {
            functions,
            scope: &scope,
        },
        y,
        z,
        e,
    )
}

/// Adds those in `let x = bound in rest`.
#[cycle(push_names)]
fn push_let<'s, 'a>(
    found: &mut Vec<Occurrence<'a>>,
    env: Env<'s, 'a>,
    x: &'a Binder,
    bound: &'a Expr,
    rest: &'a Expr,
) -> Result<(), AllocError>
    ensures { OnOk result (occurrences_of found.new.items
        ≡ occurrences_of found.old.items
        ++ (variable (bound_of x.now)
        ∷ (names_in (bounds_of env.entry.functions.now) (scope_of env.entry.scope.now) (term_of bound.now)
        ++ names_in (bounds_of env.entry.functions.now) (bound_of x.now ∷ scope_of env.entry.scope.now) (term_of rest.now)))) }
{
    push_binder(found, x)?;
    push_names(found, env, bound)?;
    push_below(found, env, x, rest)
}

/// Adds those in `let (x, y) = bound in rest`.
#[cycle(push_names)]
fn push_let_pair<'s, 'a>(
    found: &mut Vec<Occurrence<'a>>,
    env: Env<'s, 'a>,
    x: &'a Binder,
    y: &'a Binder,
    bound: &'a Expr,
    rest: &'a Expr,
) -> Result<(), AllocError>
    ensures { OnOk result (occurrences_of found.new.items
        ≡ occurrences_of found.old.items
        ++ (variable (bound_of x.now) ∷ variable (bound_of y.now)
        ∷ (names_in (bounds_of env.entry.functions.now) (scope_of env.entry.scope.now) (term_of bound.now)
        ++ names_in (bounds_of env.entry.functions.now)
        (bound_of y.now ∷ bound_of x.now ∷ scope_of env.entry.scope.now) (term_of rest.now)))) }
{
    push_binder(found, x)?;
    push_binder(found, y)?;
    push_names(found, env, bound)?;
    push_below_two(found, env, x, y, rest)
}

/// Adds those in the branches of a match on a list.
#[cycle(push_names)]
fn push_list<'s, 'a>(
    found: &mut Vec<Occurrence<'a>>,
    env: Env<'s, 'a>,
    subject: &'a Expr,
    empty: &'a Expr,
    head: &'a Binder,
    tail: &'a Binder,
    rest: &'a Expr,
) -> Result<(), AllocError>
    ensures { OnOk result (occurrences_of found.new.items
        ≡ occurrences_of found.old.items
        ++ (names_in (bounds_of env.entry.functions.now) (scope_of env.entry.scope.now) (term_of subject.now)
        ++ (names_in (bounds_of env.entry.functions.now) (scope_of env.entry.scope.now) (term_of empty.now)
        ++ (variable (bound_of head.now) ∷ variable (bound_of tail.now)
        ∷ names_in (bounds_of env.entry.functions.now)
        (bound_of tail.now ∷ bound_of head.now ∷ scope_of env.entry.scope.now) (term_of rest.now))))) }
{
    push_two(found, env, subject, empty)?;
    push_binder(found, head)?;
    push_binder(found, tail)?;
    push_below_two(found, env, head, tail, rest)
}

/// Adds those in the branches of a match on a tree.
#[cycle(push_names)]
fn push_tree<'s, 'a>(
    found: &mut Vec<Occurrence<'a>>,
    env: Env<'s, 'a>,
    subject: &'a Expr,
    empty: &'a Expr,
    element: &'a Binder,
    left: &'a Binder,
    right: &'a Binder,
    rest: &'a Expr,
) -> Result<(), AllocError>
    ensures { OnOk result (occurrences_of found.new.items
        ≡ occurrences_of found.old.items
        ++ (names_in (bounds_of env.entry.functions.now) (scope_of env.entry.scope.now) (term_of subject.now)
        ++ (names_in (bounds_of env.entry.functions.now) (scope_of env.entry.scope.now) (term_of empty.now)
        ++ (variable (bound_of element.now) ∷ variable (bound_of left.now) ∷ variable (bound_of right.now)
        ∷ names_in (bounds_of env.entry.functions.now)
        (bound_of right.now ∷ bound_of left.now ∷ bound_of element.now ∷ scope_of env.entry.scope.now) (term_of rest.now))))) }
{
    push_two(found, env, subject, empty)?;
    push_binder(found, element)?;
    push_binder(found, left)?;
    push_binder(found, right)?;
    push_below_three(found, env, element, left, right, rest)
}

/// Adds those in the branches of a match on an option.
#[cycle(push_names)]
fn push_option<'s, 'a>(
    found: &mut Vec<Occurrence<'a>>,
    env: Env<'s, 'a>,
    subject: &'a Expr,
    empty: &'a Expr,
    content: &'a Binder,
    rest: &'a Expr,
) -> Result<(), AllocError>
    ensures { OnOk result (occurrences_of found.new.items
        ≡ occurrences_of found.old.items
        ++ (names_in (bounds_of env.entry.functions.now) (scope_of env.entry.scope.now) (term_of subject.now)
        ++ (names_in (bounds_of env.entry.functions.now) (scope_of env.entry.scope.now) (term_of empty.now)
        ++ (variable (bound_of content.now)
        ∷ names_in (bounds_of env.entry.functions.now) (bound_of content.now ∷ scope_of env.entry.scope.now) (term_of rest.now))))) }
{
    push_two(found, env, subject, empty)?;
    push_binder(found, content)?;
    push_below(found, env, content, rest)
}
