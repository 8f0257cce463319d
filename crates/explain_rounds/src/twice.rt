// Calls of a group that get the same part.
ghost use Rattle.std.specs.Prelude.{◌≡◌, ◌<◌, ◌^◌, IfOk, Some, length, map, slice_get};
ghost use Rattle.raml_syntax.specs.Place.{place_of};
ghost use Rattle.raml_syntax.specs.Read.{program_of, function_of, term_of, terms_of, parameter_of};
ghost use Rattle.call_groups.specs.Read.{ids_of};
ghost use Rattle.explain_rounds.specs.Classes as c;
ghost use Rattle.explain_rounds.specs.Twice.{nothing, both, either, found_from, calls_with_same_part};
ghost use Rattle.explain_rounds.specs.Read.{program_in, variables_at, binders};
ghost use Rattle.explain_rounds.specs.Found.{pairs_of, found_of, found_by, all_found_by, found_below, body_found_by, call_found};

use crate::calls::Env;
use crate::class::{Class, class_of, class_of_type};
use crate::handed::{Handed, SamePart, add_crossed, hand_all};
use crate::idle::{function_at, is_in, params_of};
use crate::scope::Scope;
use raml_syntax::{Binder, Expr, Form, Fun, FunId, FunctionNames, Name, Param, Pos, Program};
use std::alloc::{AllocError, Global};

/// What calls of the group hand on, and those that get the same.
#[derive(Drop)]
struct Found {
    handed: Vec<Handed>,
    pairs: Vec<SamePart>,
}

fn nothing(alloc: Global) -> Found
    ensures { found_of result ≡ nothing }
{
    let handed = Vec::new(alloc);
    let pairs = Vec::new(alloc);
    Found { handed, pairs }
}

/// Of branches, of which one is evaluated.
fn either(first: Found, second: Found) -> Result<Found, AllocError>
    ensures { IfOk result (λ found. found_of found ≡ either (found_of first) (found_of second)) }
{
    let mut handed = first.handed;
    let mut pairs = first.pairs;
    handed.extend_from_slice(&second.handed)?;
    pairs.extend_from_slice(&second.pairs)?;
    Ok(Found { handed, pairs })
}

/// Of parts that both are evaluated.
fn both(first: Found, second: Found) -> Result<Found, AllocError>
    ensures { IfOk result (λ found. found_of found ≡ both (found_of first) (found_of second)) }
{
    let mut handed = first.handed;
    let mut pairs = first.pairs;
    pairs.extend_from_slice(&second.pairs)?;
    add_crossed(&mut pairs, &handed, &second.handed)?;
    handed.extend_from_slice(&second.handed)?;
    Ok(Found { handed, pairs })
}

/// What the call of a function hands on, where that is of the group.
fn find_call<'s, 'a>(
    alloc: Global,
    env: Env<'s, 'a>,
    at: Pos,
    name: &Name,
    args: &[Expr],
) -> Result<Found, AllocError>
    ensures { IfOk result (λ found. found_of found
        ≡ call_found env.entry at.0 (terms_of args.now) (place_of name.now (program_in env.entry))) }
{
    let mut handed = Vec::new(alloc);
    if let Some(callee) = env.functions.find(name.text()) {
        if is_in(callee, env.group) {
            let params = params_of(env.functions.program, callee);
            hand_all(&mut handed, env.scope, at, params, args)?;
        }
    }
    let pairs = Vec::new(alloc);
    Ok(Found { handed, pairs })
}

/// What is found in an expression.
#[cycle(twice)]
fn find<'s, 'a>(alloc: Global, env: Env<'s, 'a>, e: &'a Expr) -> Result<Found, AllocError>
    ensures { IfOk result (λ found. found_of found ≡ found_by env.entry (term_of e.now)) }
{
    match &e.form {
        Form::Number(_) | Form::Truth(_) | Form::Nil | Form::Leaf | Form::Nothing | Form::Var(_) =>
            { Ok(nothing(alloc)) }
        Form::Not(a) | Form::Just(a) | Form::Tick(_, a) | Form::Typed(a, _) => find(alloc, env, a),
        Form::Arith(_, a, b) | Form::Compare(_, a, b) | Form::Pair(a, b) | Form::Cons(a, b) => {
            find_both(alloc, env, a, b)
        }
        Form::Node(a, b, c) => find_three(alloc, env, a, b, c),
        Form::If(c, a, b) => find_branches(alloc, env, c, a, b),
        Form::Call(name, args) => find_arguments(alloc, env, e.at, name, args),
        Form::Let(x, a, b) => find_let(alloc, env, a, &[x], b),
        Form::LetPair(x, y, a, b) => find_let(alloc, env, a, &[x, y], b),
        Form::MatchList(c, a, x, y, b) => find_match(alloc, env, c, a, &[x, y], b),
        Form::MatchTree(c, a, x, y, z, b) => find_match(alloc, env, c, a, &[x, y, z], b),
        Form::MatchOption(c, a, x, b) => find_match(alloc, env, c, a, &[x], b),
    }
}

#[cycle(twice)]
fn find_both<'s, 'a>(
    alloc: Global,
    env: Env<'s, 'a>,
    first: &'a Expr,
    second: &'a Expr,
) -> Result<Found, AllocError>
    ensures { IfOk result (λ found. found_of found
        ≡ both (found_by env.entry (term_of first.now)) (found_by env.entry (term_of second.now))) }
{
    let first = find(alloc, env, first)?;
    let second = find(alloc, env, second)?;
    both(first, second)
}

#[cycle(twice)]
fn find_three<'s, 'a>(
    alloc: Global,
    env: Env<'s, 'a>,
    first: &'a Expr,
    second: &'a Expr,
    third: &'a Expr,
) -> Result<Found, AllocError>
    ensures { IfOk result (λ found. found_of found
        ≡ both (found_by env.entry (term_of first.now))
        (both (found_by env.entry (term_of second.now)) (found_by env.entry (term_of third.now)))) }
{
    let first = find(alloc, env, first)?;
    let others = find_both(alloc, env, second, third)?;
    both(first, others)
}

#[cycle(twice)]
fn find_either<'s, 'a>(
    alloc: Global,
    env: Env<'s, 'a>,
    first: &'a Expr,
    second: &'a Expr,
) -> Result<Found, AllocError>
    ensures { IfOk result (λ found. found_of found
        ≡ either (found_by env.entry (term_of first.now)) (found_by env.entry (term_of second.now))) }
{
    let first = find(alloc, env, first)?;
    let second = find(alloc, env, second)?;
    either(first, second)
}

#[cycle(twice)]
fn find_branches<'s, 'a>(
    alloc: Global,
    env: Env<'s, 'a>,
    condition: &'a Expr,
    first: &'a Expr,
    second: &'a Expr,
) -> Result<Found, AllocError>
    ensures { IfOk result (λ found. found_of found
        ≡ both (found_by env.entry (term_of condition.now))
        (either (found_by env.entry (term_of first.now)) (found_by env.entry (term_of second.now)))) }
{
    let condition = find(alloc, env, condition)?;
    let branches = find_either(alloc, env, first, second)?;
    both(condition, branches)
}

#[cycle(twice)]
fn find_all<'s, 'a>(alloc: Global, env: Env<'s, 'a>, args: &'a [Expr]) -> Result<Found, AllocError>
    ensures { IfOk result (λ found. found_of found
        ≡ all_found_by env.entry (terms_of args.now)) }
{
    match args {
        [] => Ok(nothing(alloc)),
        [arg, rest @ ..] => {
            let first = find(alloc, env, arg)?;
            let others = find_all(alloc, env, rest)?;
            both(first, others)
        }
    }
}

/// What a call hands on, and what is found in its arguments.
#[cycle(twice)]
fn find_arguments<'s, 'a>(
    alloc: Global,
    env: Env<'s, 'a>,
    at: Pos,
    name: &Name,
    args: &'a [Expr],
) -> Result<Found, AllocError>
    ensures { IfOk result (λ found. found_of found
        ≡ both (call_found env.entry at.0 (terms_of args.now) (place_of name.now (program_in env.entry)))
        (all_found_by env.entry (terms_of args.now))) }
{
    let call = find_call(alloc, env, at, name, args)?;
    let others = find_all(alloc, env, args)?;
    both(call, others)
}

/// What is found in an expression below more names of one class.
#[cycle(twice)]
fn find_below<'s, 'a>(
    alloc: Global,
    env: Env<'s, 'a>,
    class: Class,
    names: &[&'a Binder],
    e: &'a Expr,
) -> Result<Found, AllocError>
    ensures { IfOk result (λ found. found_of found
        ≡ found_below env.entry class (binders names.now) (term_of e.now)) }
{
    match names {
        [] => find(alloc, env, e),
        [first, rest @ ..] => {
            let scope = Scope::Bound {
                at: first.at,
                name: &first.name,
                class,
                outer: env.scope,
            };
            let inner = Env {
                scope: &scope,
                ..env
            };
            find_below(alloc, inner, class, rest, e)
        }
    }
}

/// What is found in what is bound, and below its names, which are what it is.
#[cycle(twice)]
fn find_let<'s, 'a>(
    alloc: Global,
    env: Env<'s, 'a>,
    bound: &'a Expr,
    names: &[&'a Binder],
    rest: &'a Expr,
) -> Result<Found, AllocError>
    ensures { IfOk result (λ found. found_of found
        ≡ both (found_by env.entry (term_of bound.now))
        (found_below env.entry (c.class_of (variables_at env.entry) (term_of bound.now)) (binders names.now) (term_of rest.now))) }
{
    let class = class_of(env.scope, bound);
    let bound = find(alloc, env, bound)?;
    let rest = find_below(alloc, env, class, names, rest)?;
    both(bound, rest)
}

/// What is found where a subject is empty, and below the names of its parts.
#[cycle(twice)]
fn find_cases<'s, 'a>(
    alloc: Global,
    env: Env<'s, 'a>,
    class: Class,
    empty: &'a Expr,
    names: &[&'a Binder],
    rest: &'a Expr,
) -> Result<Found, AllocError>
    ensures { IfOk result (λ found. found_of found
        ≡ either (found_by env.entry (term_of empty.now)) (found_below env.entry class (binders names.now) (term_of rest.now))) }
{
    let empty = find(alloc, env, empty)?;
    let rest = find_below(alloc, env, class, names, rest)?;
    either(empty, rest)
}

/// What is found in a match.
#[cycle(twice)]
fn find_match<'s, 'a>(
    alloc: Global,
    env: Env<'s, 'a>,
    subject: &'a Expr,
    empty: &'a Expr,
    names: &[&'a Binder],
    rest: &'a Expr,
) -> Result<Found, AllocError>
    ensures { IfOk result (λ found. found_of found
        ≡ both (found_by env.entry (term_of subject.now))
        (either (found_by env.entry (term_of empty.now))
        (found_below env.entry (c.taken_out (c.class_of (variables_at env.entry) (term_of subject.now))) (binders names.now)
        (term_of rest.now)))) }
{
    let class = class_of(env.scope, subject).taken_out();
    let subject = find(alloc, env, subject)?;
    let cases = find_cases(alloc, env, class, empty, names, rest)?;
    both(subject, cases)
}

/// What is found in a body below parameters, of which some are bound already.
fn find_body<'s, 'a>(
    alloc: Global,
    env: Env<'s, 'a>,
    params: &'a [Param],
    body: &'a Expr,
) -> Result<Found, AllocError>
    ensures { IfOk result (λ found. found_of found ≡ body_found_by env.entry (map parameter_of params.now) (term_of body.now)) }
{
    match params {
        [] => find(alloc, env, body),
        [param, rest @ ..] => {
            let scope = Scope::Bound {
                at: param.at,
                name: &param.name,
                class: class_of_type(&param.ty),
                outer: env.scope,
            };
            let inner = Env {
                scope: &scope,
                ..env
            };
            find_body(alloc, inner, rest, body)
        }
    }
}

/// What is found in a function.
fn find_in<'a>(
    alloc: Global,
    functions: &FunctionNames<'a>,
    group: &[FunId],
    fun: &'a Fun,
) -> Result<Found, AllocError>
    ensures { IfOk result (λ found. found_of found
        ≡ found_from (program_of functions.now.program.now) (ids_of group.now) (Some (function_of fun.now))) }
{
    let scope = Scope::Empty;
    let env = Env {
        functions,
        group,
        scope: &scope,
    };
    find_body(alloc, env, &fun.params, &fun.body)
}

/// What is found in the function at a place.
fn find_at<'a>(
    alloc: Global,
    functions: &FunctionNames<'a>,
    group: &[FunId],
    fun: FunId,
) -> Result<Found, AllocError>
    ensures { IfOk result (λ found. found_of found
        ≡ found_from (program_of functions.now.program.now) (ids_of group.now)
        (slice_get (program_of functions.now.program.now) fun.0)) }
{
    match function_at(functions.program, fun) {
        Some(fun) => Ok(find_in(alloc, functions, group, fun)?),
        None => Ok(nothing(alloc)),
    }
}

/// The calls of functions of the group in a function, two by two, that can both happen in one evaluation
/// of its body and that both get the same part; none where there is no such function.
pub fn calls_with_same_part(
    alloc: Global,
    program: &Program,
    group: &[FunId],
    fun: FunId,
) -> Result<Vec<SamePart>, AllocError>
    requires { length (program_of program.now) < 2 ^ 32 }
    ensures { IfOk result (λ pairs. pairs_of pairs.items ≡ calls_with_same_part (program_of program.now) (ids_of group.now) fun.0) }
{
    let functions = FunctionNames::new(alloc, program)?;
    let found = find_at(alloc, &functions, group, fun)?;
    Ok(found.pairs)
}
