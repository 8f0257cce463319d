// The sites of a program.
ghost use Rattle.std.specs.Prelude.{◌≡◌, [], IfOk, OnOk, map};
ghost use Rattle.raml_syntax.specs.Read.{program_of, function_of, parameter_of, term_of, terms_of, bound_of};
ghost use Rattle.raml_syntax.specs.Tree as t;
ghost use Rattle.explain_changes.specs.Scope as s;
ghost use Rattle.explain_changes.specs.Sites as p;
ghost use Rattle.explain_changes.specs.Read.{sites_of, scope_in, Adds, sites_at};

mod branches;

use crate::kind::kind;
use crate::scope::{Scope, variable};
use crate::site::Site;
use crate::uses::branches::{
    walk_let, walk_let_pair, walk_match_list, walk_match_option, walk_match_tree,
};
use raml_syntax::{Expr, Form, Fun, Name, Param, Pos, Program};
use std::alloc::{AllocError, Global};

/// Where an expression stands: its program, its function, and what is known of variables.
#[derive(Clone, Copy)]
pub struct Place<'s, 'a> {
    pub program: &'a Program,
    pub function: &'a Name,
    pub scope: &'s Scope<'s, 'a>,
}

/// Adds the use of a variable, where it is a site.
fn add_use<'s, 'a>(
    place: Place<'s, 'a>,
    at: Pos,
    variable: &'a Name,
    found: &mut Vec<Site<'a>>,
) -> Result<(), AllocError>
    ensures { OnOk result (Adds found.old.items found.new.items (sites_at place.entry (t.Var at.0 variable.now))) }
{
    let Some(built) = place.scope.built(variable.text()) else {
        return Ok(());
    };
    found.push(Site {
        at,
        function: place.function,
        variable,
        built,
    })?;
    Ok(())
}

/// Adds the sites of an expression.
#[cycle(walk)]
fn walk<'s, 'a>(
    place: Place<'s, 'a>,
    e: &'a Expr,
    found: &mut Vec<Site<'a>>,
) -> Result<(), AllocError>
    ensures { OnOk result (Adds found.old.items found.new.items (sites_at place.entry (term_of e.now))) }
{
    match &e.form {
        Form::Number(_) | Form::Truth(_) | Form::Nil | Form::Leaf | Form::Nothing => Ok(()),
        Form::Var(name) => add_use(place, e.at, name, found),
        Form::Not(a) | Form::Just(a) | Form::Tick(_, a) | Form::Typed(a, _) => {
            walk(place, a, found)
        }
        Form::Arith(_, a, b) | Form::Compare(_, a, b) | Form::Pair(a, b) | Form::Cons(a, b) => {
            walk(place, a, found)?;
            walk(place, b, found)
        }
        Form::Node(a, b, c) | Form::If(a, b, c) => {
            walk(place, a, found)?;
            walk(place, b, found)?;
            walk(place, c, found)
        }
        Form::Call(_, args) => walk_all(place, args, found),
        Form::Let(x, bound, rest) => walk_let(place, x, bound, rest, found),
        Form::LetPair(x, y, subject, rest) => walk_let_pair(place, x, y, subject, rest, found),
        Form::MatchList(subject, empty, x, y, rest) => {
            walk_match_list(place, subject, empty, x, y, rest, found)
        }
        Form::MatchTree(subject, empty, x, y, z, rest) => {
            walk_match_tree(place, subject, empty, x, y, z, rest, found)
        }
        Form::MatchOption(subject, empty, x, rest) => {
            walk_match_option(place, subject, empty, x, rest, found)
        }
    }
}

/// Adds the sites of arguments.
#[cycle(walk)]
fn walk_all<'s, 'a>(
    place: Place<'s, 'a>,
    args: &'a [Expr],
    found: &mut Vec<Site<'a>>,
) -> Result<(), AllocError>
    ensures { OnOk result (Adds found.old.items found.new.items (p.sites_of_all (program_of place.entry.program.now)
        place.entry.function.now (scope_in place.entry.scope.now) (terms_of args.now))) }
{
    match args {
        [] => Ok(()),
        [arg, rest @ ..] => {
            walk(place, arg, found)?;
            walk_all(place, rest, found)
        }
    }
}

/// Adds the sites of what is taken apart, which is none where that is a variable.
#[cycle(walk)]
fn walk_subject<'s, 'a>(
    place: Place<'s, 'a>,
    e: &'a Expr,
    found: &mut Vec<Site<'a>>,
) -> Result<(), AllocError>
    ensures { OnOk result (Adds found.old.items found.new.items
        (p.unless (s.variable (term_of e.now)) [] (sites_at place.entry (term_of e.now)))) }
{
    match variable(e) {
        Some(_) => Ok(()),
        None => walk(place, e, found),
    }
}

/// Adds the sites of an expression below parameters.
fn walk_below<'s, 'a>(
    place: Place<'s, 'a>,
    params: &'a [Param],
    e: &'a Expr,
    found: &mut Vec<Site<'a>>,
) -> Result<(), AllocError>
    ensures { OnOk result (Adds found.old.items found.new.items (p.sites (program_of place.entry.program.now)
        place.entry.function.now (s.in_function (scope_in place.entry.scope.now) (map parameter_of params.now)) (term_of e.now))) }
{
    match params {
        [] => walk(place, e, found),
        [param, rest @ ..] => {
            let scope = place.scope.with_name(&param.name, Some(&param.ty));
            let inner = Place {
                scope: &scope,
                ..place
            };
            walk_below(inner, rest, e, found)
        }
    }
}

/// Adds the sites of a function.
fn walk_function<'a>(
    program: &'a Program,
    fun: &'a Fun,
    found: &mut Vec<Site<'a>>,
) -> Result<(), AllocError>
    ensures { OnOk result (Adds found.old.items found.new.items (p.function_sites (program_of program.now) (function_of fun.now))) }
{
    let place = Place {
        program,
        function: &fun.name,
        scope: &Scope::Empty,
    };
    walk_below(place, &fun.params, &fun.body, found)
}

/// The sites of a program, in the order of the source.
pub fn sites<'a>(alloc: Global, program: &'a Program) -> Result<Vec<Site<'a>>, AllocError>
    ensures { IfOk result (λ sites. sites_of sites.items ≡ p.program_sites (program_of program.now)) }
{
    let mut found = Vec::new(alloc);
    for fun in &program.funs {
        walk_function(program, fun, &mut found)?;
    }
    Ok(found)
}
