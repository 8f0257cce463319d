// Programs as text: the names of forms, the places of names, and types.
use raml_syntax::{ArithOp, Binder, CompareOp, Expr, Form, Param, Program, Ty};
use std::fmt::Write;
use std::test::Fail;

fn show_type(out: &mut String, ty: &Ty) -> Result<(), Fail> {
    match ty {
        Ty::Int => out.push_str(" int")?,
        Ty::Bool => out.push_str(" bool")?,
        Ty::Pair(first, second) => {
            out.push_str(" (*")?;
            show_type(out, first)?;
            show_type(out, second)?;
            out.push_str(")")?;
        }
        Ty::List(element) => {
            out.push_str(" (list")?;
            show_type(out, element)?;
            out.push_str(")")?;
        }
        Ty::Tree(element) => {
            out.push_str(" (tree")?;
            show_type(out, element)?;
            out.push_str(")")?;
        }
        Ty::Opt(content) => {
            out.push_str(" (option")?;
            show_type(out, content)?;
            out.push_str(")")?;
        }
    }
    Ok(())
}

fn show_name(out: &mut String, binder: &Binder) -> Result<(), Fail> {
    write!(out, " {}:{}", binder.at.0, binder.name.text())?;
    Ok(())
}

fn show_two(out: &mut String, first: &Binder, second: &Binder) -> Result<(), Fail> {
    show_name(out, first)?;
    show_name(out, second)
}

fn show_three(
    out: &mut String,
    first: &Binder,
    second: &Binder,
    third: &Binder,
) -> Result<(), Fail> {
    show_two(out, first, second)?;
    show_name(out, third)
}

fn arith_word(op: ArithOp) -> &'static str {
    match op {
        ArithOp::Add => " Add",
        ArithOp::Sub => " Sub",
        ArithOp::Mul => " Mul",
        ArithOp::Div => " Div",
        ArithOp::Mod => " Mod",
    }
}

fn compare_word(op: CompareOp) -> &'static str {
    match op {
        CompareOp::Equal => " Equal",
        CompareOp::Less => " Less",
        CompareOp::AtMost => " AtMost",
    }
}

// What stands before the parts of a form.
fn word_of(form: &Form) -> &'static str {
    match form {
        Form::Arith(op, ..) => arith_word(*op),
        Form::Compare(op, ..) => compare_word(*op),
        Form::Not(..) => " not",
        Form::Pair(..) => " pair",
        Form::Cons(..) => " cons",
        Form::Node(..) => " node",
        Form::Just(..) => " some",
        Form::Call(..) => " call ",
        Form::Tick(..) => " tick ",
        Form::Typed(..) => " typed",
        Form::Let(..) | Form::LetPair(..) => " let",
        Form::If(..) => " if",
        Form::MatchList(..) | Form::MatchTree(..) | Form::MatchOption(..) => " match",
        _ => "",
    }
}

#[cycle(show)]
fn show_all(out: &mut String, exprs: &[Expr]) -> Result<(), Fail> {
    for expr in exprs {
        show(out, expr)?;
    }
    Ok(())
}

// The expression with its place in front: ` 24:x`, or ` (24 Add 24:x 28:1)`.
#[cycle(show)]
fn show(out: &mut String, expr: &Expr) -> Result<(), Fail> {
    let at = expr.at.0;
    match &expr.form {
        Form::Number(value) => write!(out, " {at}:{value}")?,
        Form::Truth(value) => write!(out, " {at}:{value}")?,
        Form::Nil => write!(out, " {at}:nil")?,
        Form::Leaf => write!(out, " {at}:leaf")?,
        Form::Nothing => write!(out, " {at}:none")?,
        Form::Var(name) => write!(out, " {at}:{}", name.text())?,
        _ => {
            write!(out, " ({at}{}", word_of(&expr.form))?;
            show_parts(out, expr)?;
            out.push_str(")")?;
        }
    }
    Ok(())
}

#[cycle(show)]
fn show_parts(out: &mut String, expr: &Expr) -> Result<(), Fail> {
    match &expr.form {
        Form::Arith(_, left, right) => {
            show(out, left)?;
            show(out, right)
        }
        Form::Compare(_, left, right) => {
            show(out, left)?;
            show(out, right)
        }
        Form::Not(operand) => show(out, operand),
        Form::Pair(first, second) => {
            show(out, first)?;
            show(out, second)
        }
        Form::Cons(head, tail) => {
            show(out, head)?;
            show(out, tail)
        }
        Form::Node(element, left, right) => {
            show(out, element)?;
            show(out, left)?;
            show(out, right)
        }
        Form::Just(content) => show(out, content),
        Form::Call(name, args) => {
            out.push_str(name.text())?;
            show_all(out, args)
        }
        Form::Tick(count, rest) => {
            write!(out, "{count}")?;
            show(out, rest)
        }
        Form::Typed(part, ty) => {
            show(out, part)?;
            show_type(out, ty)
        }
        _ => show_binding(out, expr),
    }
}

#[cycle(show)]
fn show_binding(out: &mut String, expr: &Expr) -> Result<(), Fail> {
    match &expr.form {
        Form::Let(x, bound, rest) => {
            show_name(out, x)?;
            show(out, bound)?;
            show(out, rest)
        }
        Form::LetPair(x, y, bound, rest) => {
            show_two(out, x, y)?;
            show(out, bound)?;
            show(out, rest)
        }
        Form::If(condition, first, second) => {
            show(out, condition)?;
            show(out, first)?;
            show(out, second)
        }
        Form::MatchList(subject, empty, head, tail, rest) => {
            show(out, subject)?;
            show(out, empty)?;
            show_two(out, head, tail)?;
            show(out, rest)
        }
        Form::MatchTree(subject, empty, element, left, right, rest) => {
            show(out, subject)?;
            show(out, empty)?;
            show_three(out, element, left, right)?;
            show(out, rest)
        }
        Form::MatchOption(subject, empty, content, rest) => {
            show(out, subject)?;
            show(out, empty)?;
            show_name(out, content)?;
            show(out, rest)
        }
        _ => Ok(()),
    }
}

fn show_params(out: &mut String, params: &[Param]) -> Result<(), Fail> {
    for param in params {
        write!(out, " {}:{}", param.at.0, param.name.text())?;
        show_type(out, &param.ty)?;
    }
    Ok(())
}

// The functions of a program, with the place of each name.
pub(super) fn show_program(out: &mut String, program: &Program) -> Result<(), Fail> {
    for fun in &program.funs {
        write!(out, "{} {}", fun.at.0, fun.name.text())?;
        show_params(out, &fun.params)?;
        out.push_str(" :")?;
        show_type(out, &fun.result)?;
        out.push_str(" =")?;
        show(out, &fun.body)?;
        out.push_str(";")?;
    }
    Ok(())
}
