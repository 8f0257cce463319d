// The calls inside a group of functions.
ghost use Rattle.std.specs.Prelude.{◌≡◌, ◌<◌, ◌^◌, ◌++◌, OnOk, IfOk, Some, length, map};
ghost use Rattle.raml_syntax.specs.Tree as t;
ghost use Rattle.raml_syntax.specs.Place.{place_of};
ghost use Rattle.raml_syntax.specs.Read.{program_of, function_of, term_of, terms_of, parameter_of};
ghost use Rattle.call_groups.specs.Read.{ids_of};
ghost use Rattle.explain_rounds.specs.Classes as c;
ghost use Rattle.explain_rounds.specs.Calls.{calls_from, group_calls};
ghost use Rattle.explain_rounds.specs.Read.{calls_of, program_in, variables_at, binders, call_by, calls_by};
ghost use Rattle.explain_rounds.specs.Read.{calls_below, all_calls_by, body_calls_by};

use crate::class::{Class, class_of, class_of_type};
use crate::idle::{Kind, function_at, is_in, kind_of};
use crate::scope::Scope;
use raml_syntax::{Binder, Expr, Form, Fun, FunId, FunctionNames, Name, Param, Pos, Program};
use std::alloc::{AllocError, Global};

/// A call of a function of the group, with its place.
#[derive(Clone, Copy, PartialEq, Eq, Debug)]
pub struct GroupCall {
    pub at: Pos,
    pub callee: FunId,
    pub kind: Kind,
}

/// What names stand for at a place of the program, and the group.
#[derive(Clone, Copy)]
pub struct Env<'s, 'a> {
    pub functions: &'s FunctionNames<'a>,
    pub group: &'s [FunId],
    pub scope: &'s Scope<'s, 'a>,
}

/// Adds the call of a function, where that is of the group.
fn find_call<'s, 'a>(
    found: &mut Vec<GroupCall>,
    env: Env<'s, 'a>,
    at: Pos,
    name: &Name,
    args: &[Expr],
) -> Result<(), AllocError>
    ensures { OnOk result (calls_of found.new.items
        ≡ calls_of found.old.items ++ call_by env.entry at.0 (terms_of args.now) (place_of name.now (program_in env.entry))) }
{
    match env.functions.find(name.text()) {
        Some(callee) => {
            if is_in(callee, env.group) {
                let kind = kind_of(env.scope, env.functions.program, callee, args);
                found.push(GroupCall { at, callee, kind })?;
            }
            Ok(())
        }
        None => Ok(()),
    }
}

/// Adds the calls of the group in an expression.
#[cycle(calls)]
fn find_calls<'s, 'a>(
    found: &mut Vec<GroupCall>,
    env: Env<'s, 'a>,
    e: &'a Expr,
) -> Result<(), AllocError>
    ensures { OnOk result (calls_of found.new.items ≡ calls_of found.old.items ++ calls_by env.entry (term_of e.now)) }
{
    match &e.form {
        Form::Number(_) | Form::Truth(_) | Form::Nil | Form::Leaf | Form::Nothing | Form::Var(_) =>
            { Ok(()) }
        Form::Not(a) | Form::Just(a) | Form::Tick(_, a) | Form::Typed(a, _) => {
            find_calls(found, env, a)
        }
        Form::Arith(_, a, b) | Form::Compare(_, a, b) | Form::Pair(a, b) | Form::Cons(a, b) => {
            find_two(found, env, a, b)
        }
        Form::Node(a, b, c) | Form::If(a, b, c) => find_three(found, env, a, b, c),
        Form::Call(name, args) => {
            find_call(found, env, e.at, name, args)?;
            find_all(found, env, args)
        }
        Form::Let(x, a, b) => find_let(found, env, a, &[x], b),
        Form::LetPair(x, y, a, b) => find_let(found, env, a, &[x, y], b),
        Form::MatchList(c, a, x, y, b) => find_match(found, env, c, a, &[x, y], b),
        Form::MatchTree(c, a, x, y, z, b) => find_match(found, env, c, a, &[x, y, z], b),
        Form::MatchOption(c, a, x, b) => find_match(found, env, c, a, &[x], b),
    }
}

#[cycle(calls)]
fn find_two<'s, 'a>(
    found: &mut Vec<GroupCall>,
    env: Env<'s, 'a>,
    first: &'a Expr,
    second: &'a Expr,
) -> Result<(), AllocError>
    ensures { OnOk result (calls_of found.new.items
        ≡ calls_of found.old.items ++ (calls_by env.entry (term_of first.now) ++ calls_by env.entry (term_of second.now))) }
{
    find_calls(found, env, first)?;
    find_calls(found, env, second)
}

#[cycle(calls)]
fn find_three<'s, 'a>(
    found: &mut Vec<GroupCall>,
    env: Env<'s, 'a>,
    first: &'a Expr,
    second: &'a Expr,
    third: &'a Expr,
) -> Result<(), AllocError>
    ensures { OnOk result (calls_of found.new.items
        ≡ calls_of found.old.items
        ++ (calls_by env.entry (term_of first.now)
        ++ (calls_by env.entry (term_of second.now) ++ calls_by env.entry (term_of third.now)))) }
{
    find_calls(found, env, first)?;
    find_two(found, env, second, third)
}

#[cycle(calls)]
fn find_all<'s, 'a>(
    found: &mut Vec<GroupCall>,
    env: Env<'s, 'a>,
    args: &'a [Expr],
) -> Result<(), AllocError>
    ensures { OnOk result (calls_of found.new.items ≡ calls_of found.old.items ++ all_calls_by env.entry (terms_of args.now)) }
{
    for arg in args {
        find_calls(found, env, arg)?;
    }
    Ok(())
}

/// Adds those in an expression below more names of one class.
#[cycle(calls)]
fn find_below<'s, 'a>(
    found: &mut Vec<GroupCall>,
    env: Env<'s, 'a>,
    class: Class,
    names: &[&'a Binder],
    e: &'a Expr,
) -> Result<(), AllocError>
    ensures { OnOk result (calls_of found.new.items
        ≡ calls_of found.old.items ++ calls_below env.entry class (binders names.now) (term_of e.now)) }
{
    match names {
        [] => find_calls(found, env, e),
        [first, rest @ ..] => {
            let scope = Scope::Bound {
                at: first.at,
                name: &first.name,
                class,
                outer: env.scope,
            };
            let inner = Env {
                scope: &scope,
                ..env
            };
            find_below(found, inner, class, rest, e)
        }
    }
}

/// Adds those in what is bound, and below its names, which are what it is.
#[cycle(calls)]
fn find_let<'s, 'a>(
    found: &mut Vec<GroupCall>,
    env: Env<'s, 'a>,
    bound: &'a Expr,
    names: &[&'a Binder],
    rest: &'a Expr,
) -> Result<(), AllocError>
    ensures { OnOk result (calls_of found.new.items
        ≡ calls_of found.old.items
        ++ (calls_by env.entry (term_of bound.now)
        ++ calls_below env.entry (c.class_of (variables_at env.entry) (term_of bound.now)) (binders names.now) (term_of rest.now))) }
{
    find_calls(found, env, bound)?;
    find_below(found, env, class_of(env.scope, bound), names, rest)
}

/// Adds those in a subject, where it is empty, and below the names of its parts.
#[cycle(calls)]
fn find_match<'s, 'a>(
    found: &mut Vec<GroupCall>,
    env: Env<'s, 'a>,
    subject: &'a Expr,
    empty: &'a Expr,
    names: &[&'a Binder],
    rest: &'a Expr,
) -> Result<(), AllocError>
    ensures { OnOk result (calls_of found.new.items
        ≡ calls_of found.old.items
        ++ (calls_by env.entry (term_of subject.now)
        ++ (calls_by env.entry (term_of empty.now)
        ++ calls_below env.entry (c.taken_out (c.class_of (variables_at env.entry) (term_of subject.now)))
        (binders names.now) (term_of rest.now)))) }
{
    find_two(found, env, subject, empty)?;
    let class = class_of(env.scope, subject).taken_out();
    find_below(found, env, class, names, rest)
}

/// Adds those in a body below parameters, of which some are bound already.
fn find_body<'s, 'a>(
    found: &mut Vec<GroupCall>,
    env: Env<'s, 'a>,
    params: &'a [Param],
    body: &'a Expr,
) -> Result<(), AllocError>
    ensures { OnOk result (calls_of found.new.items
        ≡ calls_of found.old.items ++ body_calls_by env.entry (map parameter_of params.now) (term_of body.now)) }
{
    match params {
        [] => find_calls(found, env, body),
        [param, rest @ ..] => {
            let scope = Scope::Bound {
                at: param.at,
                name: &param.name,
                class: class_of_type(&param.ty),
                outer: env.scope,
            };
            let inner = Env {
                scope: &scope,
                ..env
            };
            find_body(found, inner, rest, body)
        }
    }
}

/// Adds those in a function.
fn find_in<'a>(
    found: &mut Vec<GroupCall>,
    functions: &FunctionNames<'a>,
    group: &[FunId],
    fun: &'a Fun,
) -> Result<(), AllocError>
    ensures { OnOk result (calls_of found.new.items
        ≡ calls_of found.old.items
        ++ calls_from (program_of functions.now.program.now) (ids_of group.now) (Some (function_of fun.now))) }
{
    let scope = Scope::Empty;
    let env = Env {
        functions,
        group,
        scope: &scope,
    };
    find_body(found, env, &fun.params, &fun.body)
}

/// Adds those in the function at a place.
fn find_at<'a>(
    found: &mut Vec<GroupCall>,
    functions: &FunctionNames<'a>,
    group: &[FunId],
    fun: FunId,
) -> Result<(), AllocError>
    ensures { OnOk result (calls_of found.new.items
        ≡ calls_of found.old.items ++ group_calls (program_of functions.now.program.now) (ids_of group.now) fun.0) }
{
    match function_at(functions.program, fun) {
        Some(fun) => {
            find_in(found, functions, group, fun)?;
            Ok(())
        }
        None => Ok(()),
    }
}

/// The calls of functions of the group in a function, in the order of the source; none where there is
/// no such function.
pub fn group_calls(
    alloc: Global,
    program: &Program,
    group: &[FunId],
    fun: FunId,
) -> Result<Vec<GroupCall>, AllocError>
    requires { length (program_of program.now) < 2 ^ 32 }
    ensures { IfOk result (λ calls. calls_of calls.items ≡ group_calls (program_of program.now) (ids_of group.now) fun.0) }
{
    let functions = FunctionNames::new(alloc, program)?;
    let mut found = Vec::new(alloc);
    find_at(&mut found, &functions, group, fun)?;
    Ok(found)
}
