// Whether a program is the changed one, places aside.
ghost use Rattle.std.specs.Prelude.{◌↔◌, IsTrue, map};
ghost use Rattle.raml_syntax.specs.Read.{program_of, function_of, parameter_of, term_of, terms_of};
ghost use Rattle.explain_changes.specs.Scope as s;
ghost use Rattle.explain_changes.specs.Sites as p;
ghost use Rattle.explain_changes.specs.Same.{Same, SameAll, SameParameters, SameFunction, SameProgram};
ghost use Rattle.explain_changes.specs.Read.{scope_in, bytes_of, changed_at};

mod branches;
mod leaves;
mod operators;

use crate::compare::branches::{
    same_let, same_let_pair, same_match_list, same_match_option, same_match_tree,
};
use crate::compare::leaves::{
    is_leaf, is_nil, is_nothing, is_number, is_truth, same_name, same_use, same_variable,
};
use crate::compare::operators::{
    same_arith, same_call, same_compare, same_cons, same_if, same_just, same_node, same_not,
    same_pair, same_tick, same_typed,
};
use crate::scope::{Scope, variable};
use crate::site::Site;
use raml_syntax::{Expr, Form, Fun, Param, Program};

/// Where an expression of a program that is changed stands: the sites that are chosen, and what is known of variables.
#[derive(Clone, Copy)]
pub struct Changing<'s, 'a> {
    pub program: &'a Program,
    pub chosen: &'s [Site<'a>],
    pub scope: &'s Scope<'s, 'a>,
}

/// Whether the other expression is the changed one.
#[cycle(same)]
fn same<'s, 'a>(place: Changing<'s, 'a>, e: &'a Expr, other: &Expr) -> bool
    ensures { IsTrue result ↔ Same (changed_at place.entry (term_of e.now)) (term_of other.now) }
{
    match &e.form {
        Form::Number(number) => is_number(*number, other),
        Form::Truth(truth) => is_truth(*truth, other),
        Form::Nil => is_nil(other),
        Form::Leaf => is_leaf(other),
        Form::Nothing => is_nothing(other),
        Form::Var(name) => same_use(place, e.at, name, other),
        Form::Arith(op, a, b) => same_arith(place, *op, a, b, other),
        Form::Compare(op, a, b) => same_compare(place, *op, a, b, other),
        Form::Not(a) => same_not(place, a, other),
        Form::Pair(a, b) => same_pair(place, a, b, other),
        Form::Cons(a, b) => same_cons(place, a, b, other),
        Form::Node(a, b, c) => same_node(place, a, b, c, other),
        Form::Just(a) => same_just(place, a, other),
        Form::Call(function, args) => same_call(place, function, args, other),
        Form::Let(x, a, b) => same_let(place, x, a, b, other),
        Form::LetPair(x, y, a, b) => same_let_pair(place, x, y, a, b, other),
        Form::If(a, b, c) => same_if(place, a, b, c, other),
        Form::MatchList(a, b, x, y, c) => same_match_list(place, a, b, x, y, c, other),
        Form::MatchTree(a, b, x, y, z, c) => same_match_tree(place, a, b, x, y, z, c, other),
        Form::MatchOption(a, b, x, c) => same_match_option(place, a, b, x, c, other),
        Form::Tick(ticks, a) => same_tick(place, *ticks, a, other),
        Form::Typed(a, ty) => same_typed(place, a, ty, other),
    }
}

/// Whether the other arguments are the changed ones.
#[cycle(same)]
fn same_all<'s, 'a>(place: Changing<'s, 'a>, args: &'a [Expr], others: &[Expr]) -> bool
    ensures { IsTrue result ↔ SameAll (p.changed_all (program_of place.entry.program.now) (bytes_of place.entry.chosen.now)
        (scope_in place.entry.scope.now) (terms_of args.now)) (terms_of others.now) }
{
    match args {
        [] => match others {
            [] => true,
            [_, ..] => false,
        },
        [arg, rest @ ..] => match others {
            [] => false,
            [other, more @ ..] => same(place, arg, other) && same_all(place, rest, more),
        },
    }
}

/// Whether the other expression is what is taken apart. A variable is not changed there.
#[cycle(same)]
fn same_subject<'s, 'a>(place: Changing<'s, 'a>, e: &'a Expr, other: &Expr) -> bool
    ensures { IsTrue result ↔ Same (p.unless (s.variable (term_of e.now)) (term_of e.now) (changed_at place.entry (term_of e.now)))
        (term_of other.now) }
{
    match variable(e) {
        Some(_) => same_variable(e, other),
        None => same(place, e, other),
    }
}

/// Whether the other expression is the changed one below parameters.
fn same_below<'s, 'a>(
    place: Changing<'s, 'a>,
    params: &'a [Param],
    e: &'a Expr,
    other: &Expr,
) -> bool
    ensures { IsTrue result ↔ Same (p.changed (program_of place.entry.program.now) (bytes_of place.entry.chosen.now)
        (s.in_function (scope_in place.entry.scope.now) (map parameter_of params.now)) (term_of e.now)) (term_of other.now) }
{
    match params {
        [] => same(place, e, other),
        [param, rest @ ..] => {
            let scope = place.scope.with_name(&param.name, Some(&param.ty));
            let inner = Changing {
                scope: &scope,
                ..place
            };
            same_below(inner, rest, e, other)
        }
    }
}

/// Whether the parameters have the same names and types.
fn same_params(params: &[Param], others: &[Param]) -> bool
    ensures { IsTrue result ↔ SameParameters (map parameter_of params.now) (map parameter_of others.now) }
{
    match params {
        [] => match others {
            [] => true,
            [_, ..] => false,
        },
        [param, rest @ ..] => match others {
            [] => false,
            [other, more @ ..] => {
                same_name(&param.name, &other.name)
                    && param.ty.same(&other.ty)
                    && same_params(rest, more)
            }
        },
    }
}

/// Whether the other function is the changed one.
fn same_function<'s, 'a>(
    program: &'a Program,
    chosen: &'s [Site<'a>],
    fun: &'a Fun,
    other: &Fun,
) -> bool
    ensures { IsTrue result ↔ SameFunction (p.changed_function (program_of program.now) (bytes_of chosen.now) (function_of fun.now))
        (function_of other.now) }
{
    let place = Changing {
        program,
        chosen,
        scope: &Scope::Empty,
    };
    same_name(&fun.name, &other.name)
        && same_params(&fun.params, &other.params)
        && fun.result.same(&other.result)
        && same_below(place, &fun.params, &fun.body, &other.body)
}

/// Whether the other functions are the changed ones.
fn same_functions<'s, 'a>(
    program: &'a Program,
    chosen: &'s [Site<'a>],
    funs: &'a [Fun],
    others: &[Fun],
) -> bool
    ensures { IsTrue result ↔ SameProgram (map (p.changed_function (program_of program.now) (bytes_of chosen.now))
        (map function_of funs.now)) (map function_of others.now) }
{
    match funs {
        [] => match others {
            [] => true,
            [_, ..] => false,
        },
        [fun, rest @ ..] => match others {
            [] => false,
            [other, more @ ..] => {
                same_function(program, chosen, fun, other)
                    && same_functions(program, chosen, rest, more)
            }
        },
    }
}

/// Whether the other program is the one in which the values at these sites are built again, places aside.
pub fn is_changed<'a>(program: &'a Program, chosen: &[Site<'a>], other: &Program) -> bool
    ensures { IsTrue result ↔ SameProgram (p.changed_program (program_of program.now) (bytes_of chosen.now)) (program_of other.now) }
{
    same_functions(program, chosen, &program.funs, &other.funs)
}
