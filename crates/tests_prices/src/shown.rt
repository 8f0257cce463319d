// Programs as text, with the place of each node.
use raml_syntax::{ArithOp, Binder, CompareOp, Expr, Form, Program};
use std::alloc::AllocError;
use std::fmt::Write;

fn arith_word(op: ArithOp) -> &'static str {
    match op {
        ArithOp::Add => "+",
        ArithOp::Sub => "-",
        ArithOp::Mul => "*",
        ArithOp::Div => "div",
        ArithOp::Mod => "mod",
    }
}

fn compare_word(op: CompareOp) -> &'static str {
    match op {
        CompareOp::Equal => "=",
        CompareOp::Less => "<",
        CompareOp::AtMost => "<=",
    }
}

// The word of a form that has parts.
fn word_of(form: &Form) -> &'static str {
    match form {
        Form::Arith(op, ..) => arith_word(*op),
        Form::Compare(op, ..) => compare_word(*op),
        Form::Not(..) => "not",
        Form::Pair(..) => "pair",
        Form::Cons(..) => "cons",
        Form::Node(..) => "node",
        Form::Just(..) => "some",
        Form::Call(..) => "call",
        Form::Let(..) | Form::LetPair(..) => "let",
        Form::If(..) => "if",
        Form::MatchList(..) | Form::MatchTree(..) | Form::MatchOption(..) => "match",
        Form::Tick(..) => "tick",
        Form::Typed(..) => "typed",
        _ => "",
    }
}

fn push_names(out: &mut String, names: &[&Binder]) -> Result<(), AllocError> {
    for name in names {
        write!(out, " {}", name.name.text())?;
    }
    Ok(())
}

// What stands behind the word: the function that is called, the names that are bound, a number of ticks.
fn push_names_of(out: &mut String, form: &Form) -> Result<(), AllocError> {
    match form {
        Form::Call(name, _) => write!(out, " {}", name.text()),
        Form::Let(x, ..) => push_names(out, &[x]),
        Form::LetPair(x, y, ..) => push_names(out, &[x, y]),
        Form::MatchList(_, _, x, y, _) => push_names(out, &[x, y]),
        Form::MatchTree(_, _, x, y, z, _) => push_names(out, &[x, y, z]),
        Form::MatchOption(_, _, x, _) => push_names(out, &[x]),
        Form::Tick(count, _) => write!(out, " {count}"),
        _ => Ok(()),
    }
}

// A node: ` 24:x`, or ` (24:+ 24:x 28:1)`.
#[cycle(push)]
fn push_expr(out: &mut String, e: &Expr) -> Result<(), AllocError> {
    let at = e.at.0;
    match &e.form {
        Form::Number(number) => write!(out, " {at}:{number}"),
        Form::Truth(truth) => write!(out, " {at}:{truth}"),
        Form::Nil => write!(out, " {at}:nil"),
        Form::Leaf => write!(out, " {at}:leaf"),
        Form::Nothing => write!(out, " {at}:none"),
        Form::Var(name) => write!(out, " {at}:{}", name.text()),
        form => {
            write!(out, " ({at}:{}", word_of(form))?;
            push_names_of(out, form)?;
            push_parts(out, e)?;
            out.push_str(")")
        }
    }
}

#[cycle(push)]
fn push_parts(out: &mut String, e: &Expr) -> Result<(), AllocError> {
    match &e.form {
        Form::Arith(_, a, b) | Form::Compare(_, a, b) | Form::Pair(a, b) | Form::Cons(a, b) => {
            push_expr(out, a)?;
            push_expr(out, b)
        }
        Form::Let(_, a, b) | Form::LetPair(_, _, a, b) => {
            push_expr(out, a)?;
            push_expr(out, b)
        }
        Form::Not(a) | Form::Just(a) | Form::Tick(_, a) | Form::Typed(a, _) => push_expr(out, a),
        Form::Call(_, args) => push_all(out, args),
        _ => push_three(out, e),
    }
}

#[cycle(push)]
fn push_three(out: &mut String, e: &Expr) -> Result<(), AllocError> {
    match &e.form {
        Form::Node(a, b, c)
        | Form::If(a, b, c)
        | Form::MatchList(a, b, _, _, c)
        | Form::MatchTree(a, b, _, _, _, c)
        | Form::MatchOption(a, b, _, c) => {
            push_expr(out, a)?;
            push_expr(out, b)?;
            push_expr(out, c)
        }
        _ => Ok(()),
    }
}

#[cycle(push)]
fn push_all(out: &mut String, exprs: &[Expr]) -> Result<(), AllocError> {
    for e in exprs {
        push_expr(out, e)?;
    }
    Ok(())
}

/// Adds the bodies of a program, in order.
pub fn push_program(out: &mut String, program: &Program) -> Result<(), AllocError> {
    for fun in &program.funs {
        push_expr(out, &fun.body)?;
    }
    Ok(())
}
