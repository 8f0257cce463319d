// Operands.
use crate::callee::Callee;
use crate::infix::{Infix, Level, arith, compare, cons};
use crate::place::Place;
use crate::shape::needs_type;
use crate::writer::Writer;
use crate::writing::write_block;
use raml_syntax::{Expr, Form, Name, Ty};

/// Writes a value to be bound or taken apart, with its type where that is needed.
#[cycle(writing)]
pub fn write_value<'s, 'a>(
    out: &mut Writer,
    place: Place<'s, 'a>,
    e: &'a Expr,
    ty: Option<&'a Ty>,
) {
    let place = place.part();
    match ty {
        Some(ty) => {
            if needs_type(e) {
                write_with_type(out, place, e, ty);
            } else {
                write_any(out, place, e);
            }
        }
        None => write_any(out, place, e),
    }
}

#[cycle(writing)]
fn write_with_type<'s, 'a>(out: &mut Writer, place: Place<'s, 'a>, e: &'a Expr, ty: &'a Ty) {
    out.push("(");
    write_any(out, place, e);
    out.push(" : ");
    out.push_ty(ty);
    out.push(")");
}

/// Writes an operand where any expression may stand.
#[cycle(writing)]
pub fn write_any<'s, 'a>(out: &mut Writer, place: Place<'s, 'a>, e: &'a Expr) {
    write_operand(out, place, Level::Expression, e);
}

/// Writes an operand, in parentheses where it does not hold together as tightly as it has to here.
#[cycle(writing)]
fn write_operand<'s, 'a>(out: &mut Writer, place: Place<'s, 'a>, level: Level, e: &'a Expr) {
    let Some(place) = place.inside(out) else {
        return;
    };
    match &e.form {
        Form::Number(number) => out.push_number(*number),
        Form::Truth(truth) => out.push(if *truth { "true" } else { "false" }),
        Form::Nil => out.push("nil"),
        Form::Leaf => out.push("leaf"),
        Form::Nothing => out.push("none"),
        Form::Var(name) => out.push_name(place.names.find(name)),
        Form::Arith(op, a, b) => write_infix(out, place, level, arith(*op), a, b),
        Form::Compare(op, a, b) => write_infix(out, place, level, compare(*op), a, b),
        Form::Cons(a, b) => write_infix(out, place, level, cons(), a, b),
        Form::Not(a) => {
            out.push("not ");
            write_operand(out, place, Level::Atom, a);
        }
        Form::Pair(a, b) => write_pair(out, place, a, b),
        Form::Node(a, b, c) => write_node(out, place, a, b, c),
        Form::Just(a) => write_just(out, place, a),
        Form::Call(name, args) => write_call_operand(out, place, e, name, args),
        Form::Typed(a, ty) => write_with_type(out, place, a, ty),
        _ => write_grouped(out, place, e),
    }
}

/// Writes an expression that goes over lines, in parentheses.
#[cycle(writing)]
fn write_grouped<'s, 'a>(out: &mut Writer, place: Place<'s, 'a>, e: &'a Expr) {
    out.push("(");
    write_block(out, place.part().indented(2), e);
    out.push(")");
}

#[cycle(writing)]
fn write_infix<'s, 'a>(
    out: &mut Writer,
    place: Place<'s, 'a>,
    level: Level,
    infix: Infix,
    left: &'a Expr,
    right: &'a Expr,
) {
    let is_grouped = level.groups(infix.level);
    if is_grouped {
        out.push("(");
    }
    write_operand(out, place, infix.left, left);
    out.push(infix.text);
    write_operand(out, place, infix.right, right);
    if is_grouped {
        out.push(")");
    }
}

#[cycle(writing)]
fn write_pair<'s, 'a>(out: &mut Writer, place: Place<'s, 'a>, first: &'a Expr, second: &'a Expr) {
    out.push("(");
    write_any(out, place, first);
    out.push(", ");
    write_any(out, place, second);
    out.push(")");
}

#[cycle(writing)]
fn write_node<'s, 'a>(
    out: &mut Writer,
    place: Place<'s, 'a>,
    element: &'a Expr,
    left: &'a Expr,
    right: &'a Expr,
) {
    out.push("node(");
    write_any(out, place, element);
    out.push(", ");
    write_any(out, place, left);
    out.push(", ");
    write_any(out, place, right);
    out.push(")");
}

#[cycle(writing)]
fn write_just<'s, 'a>(out: &mut Writer, place: Place<'s, 'a>, content: &'a Expr) {
    out.push("some(");
    write_any(out, place, content);
    out.push(")");
}

#[cycle(writing)]
fn write_call_operand<'s, 'a>(
    out: &mut Writer,
    place: Place<'s, 'a>,
    e: &'a Expr,
    name: &Name,
    args: &'a [Expr],
) {
    match place.called(name, args) {
        Some(callee) => write_called(out, place, callee, e),
        None => {
            out.push(name.text());
            out.push("(");
            write_all(out, place, args);
            out.push(")");
        }
    }
}

/// Writes a call that is written out, in parentheses: those around its type, where it stands with that.
#[cycle(writing)]
fn write_called<'s, 'a>(out: &mut Writer, place: Place<'s, 'a>, callee: Callee<'a>, e: &'a Expr) {
    if needs_type(&callee.fun.body) {
        write_block(out, place.part().indented(2), e);
    } else {
        write_grouped(out, place, e);
    }
}

/// Writes arguments, with commas between them.
#[cycle(writing)]
fn write_all<'s, 'a>(out: &mut Writer, place: Place<'s, 'a>, args: &'a [Expr]) {
    let mut is_first = true;
    for arg in args {
        if !is_first {
            out.push(", ");
        }
        write_any(out, place, arg);
        is_first = false;
    }
}
