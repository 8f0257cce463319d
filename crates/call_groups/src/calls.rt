// Which functions a program's functions call.
ghost use Rattle.std.specs.Prelude.{◌≡◌, ◌≤◌, IfOk, length, map};
ghost use Rattle.raml_syntax.specs.Read.{program_of, term_of, terms_of};
ghost use Rattle.raml_syntax.specs.Place.{place_of};
ghost use Rattle.call_groups.specs.Read.{rows_of};
ghost use Rattle.call_groups.specs.Sets.{has, none};
ghost use Rattle.call_groups.specs.Table.{marked, marked_in, marked_place, call_table};

use crate::function_set::FunctionSet;
use raml_syntax::{Expr, Form, FunctionNames, Name, Program};
use std::alloc::{AllocError, Global};

/// Adds the function of this name.
fn mark_name(names: &FunctionNames, name: &Name, row: &mut FunctionSet)
    requires { length (program_of names.now.program.now) ≤ 256 }
    ensures { has row.new ≡ marked_place (place_of name.now (program_of names.now.program.now)) (has row.old) }
{
    if let Some(fun) = names.find(name.text()) {
        row.insert(fun.0 as usize);
    }
}

/// Adds the functions that are called in an expression.
#[cycle(marking)]
fn mark(names: &FunctionNames, e: &Expr, row: &mut FunctionSet)
    requires { length (program_of names.now.program.now) ≤ 256 }
    ensures { has row.new ≡ marked (program_of names.now.program.now) (term_of e.now) (has row.old) }
{
    match &e.form {
        Form::Number(_) | Form::Truth(_) | Form::Nil | Form::Leaf | Form::Nothing | Form::Var(_) =>
            {}
        Form::Not(a) | Form::Just(a) | Form::Tick(_, a) | Form::Typed(a, _) => mark(names, a, row),
        Form::Arith(_, a, b)
        | Form::Compare(_, a, b)
        | Form::Pair(a, b)
        | Form::Cons(a, b)
        | Form::Let(_, a, b)
        | Form::LetPair(_, _, a, b) => {
            mark(names, a, row);
            mark(names, b, row);
        }
        Form::Node(a, b, c)
        | Form::If(a, b, c)
        | Form::MatchList(a, b, _, _, c)
        | Form::MatchTree(a, b, _, _, _, c)
        | Form::MatchOption(a, b, _, c) => {
            mark(names, a, row);
            mark(names, b, row);
            mark(names, c, row);
        }
        Form::Call(name, args) => {
            mark_name(names, name, row);
            mark_all(names, args, row);
        }
    }
}

#[cycle(marking)]
fn mark_all(names: &FunctionNames, args: &[Expr], row: &mut FunctionSet)
    requires { length (program_of names.now.program.now) ≤ 256 }
    ensures { has row.new ≡ marked_in (program_of names.now.program.now) (terms_of args.now) (has row.old) }
{
    for arg in args {
        mark(names, arg, row);
    }
}

/// The functions that are called in an expression.
fn called(names: &FunctionNames, e: &Expr) -> FunctionSet
    requires { length (program_of names.now.program.now) ≤ 256 }
    ensures { has result ≡ marked (program_of names.now.program.now) (term_of e.now) none }
{
    let mut row = FunctionSet::empty();
    mark(names, e, &mut row);
    row
}

/// Which function calls which: a set for each.
pub fn call_rows(alloc: Global, program: &Program) -> Result<Vec<FunctionSet>, AllocError>
    requires { length (program_of program.now) ≤ 256 }
    ensures { IfOk result (λ rows. rows_of rows.items ≡ call_table (program_of program.now)) }
{
    let names = FunctionNames::new(alloc, program)?;
    let mut rows = Vec::new(alloc);
    for fun in &program.funs {
        rows.push(called(&names, &fun.body))?;
    }
    Ok(rows)
}
