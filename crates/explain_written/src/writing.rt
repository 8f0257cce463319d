// Expressions are written.
mod calls;
mod ends;
mod operands;
mod parts;
mod settling;
mod taken;

use crate::known::variable;
use crate::names::{Known, Written};
use crate::place::{Apart, Place, Rest};
use crate::shape::{is_built, is_short};
use crate::writer::Writer;
use crate::writing::calls::write_call;
use crate::writing::ends::write_end;
use crate::writing::operands::{write_any, write_value};
use crate::writing::settling::write_known;
use crate::writing::taken::write_taken;
use raml_syntax::{Binder, Expr, Form, Ty};

/// Writes an expression from the start of a line on, or behind what stands there.
#[cycle(writing)]
pub fn write_block<'s, 'a>(out: &mut Writer, place: Place<'s, 'a>, e: &'a Expr) {
    let Some(place) = place.inside(out) else {
        return;
    };
    match &e.form {
        Form::Let(x, a, b) => write_let(out, place, x, a, b),
        Form::If(c, a, b) => write_if(out, place, c, a, b),
        Form::Tick(count, a) => write_tick(out, place, *count, a),
        Form::Typed(a, ty) => write_typed(out, place, e, a, ty),
        Form::Call(name, args) => write_call(out, place, e, name, args),
        _ => match taken_apart(e) {
            Some((subject, by)) => write_apart(out, place, subject, by),
            None => write_end(out, place, e),
        },
    }
}

/// What the expression takes apart, and how, where it does so.
fn taken_apart(e: &Expr) -> Option<(&Expr, Apart<'_>)> {
    match &e.form {
        Form::LetPair(first, second, subject, body) => Some((
            subject,
            Apart::Pair {
                first,
                second,
                body,
            },
        )),
        Form::MatchList(subject, empty, head, tail, body) => Some((
            subject,
            Apart::List {
                empty,
                head,
                tail,
                body,
            },
        )),
        Form::MatchTree(subject, empty, element, left, right, body) => Some((
            subject,
            Apart::Tree {
                empty,
                element,
                left,
                right,
                body,
            },
        )),
        Form::MatchOption(subject, empty, content, body) => Some((
            subject,
            Apart::Option {
                empty,
                content,
                body,
            },
        )),
        _ => None,
    }
}

/// Of what the subject is built, where it is a variable of which that is known.
fn known_subject<'s, 'a>(place: Place<'s, 'a>, subject: &Expr) -> Option<Known<'s, 'a>> {
    place.names.known(variable(subject)?)
}

#[cycle(writing)]
fn write_let<'s, 'a>(
    out: &mut Writer,
    place: Place<'s, 'a>,
    x: &'a Binder,
    bound: &'a Expr,
    rest: &'a Expr,
) {
    write_binding(out, place, place.number, x, bound, None);
    let names = place.names.with_number(&x.name, place.number);
    write_block(
        out,
        Place {
            names: &names,
            ..place
        },
        rest,
    );
}

/// Writes a line `let x = bound in`, where the name has this number.
#[cycle(writing)]
fn write_binding<'s, 'a>(
    out: &mut Writer,
    place: Place<'s, 'a>,
    number: u32,
    x: &'a Binder,
    bound: &'a Expr,
    ty: Option<&'a Ty>,
) {
    out.push("let ");
    out.push_name(Written {
        name: &x.name,
        number,
    });
    out.push(" = ");
    write_value(out, place, bound, ty);
    out.push(" in");
    out.line(place.indent);
}

#[cycle(writing)]
fn write_if<'s, 'a>(
    out: &mut Writer,
    place: Place<'s, 'a>,
    condition: &'a Expr,
    first: &'a Expr,
    second: &'a Expr,
) {
    out.push("if ");
    write_any(out, place.part(), condition);
    out.push(" then");
    write_branch(out, place, 2, first);
    out.line(place.indent);
    out.push("else");
    if matches!(&second.form, Form::If(..)) {
        out.push(" ");
        write_block(out, place, second);
    } else {
        write_branch(out, place, 2, second);
    }
}

/// Writes a branch behind what begins it, or on lines of its own with so many more spaces in front.
#[cycle(writing)]
fn write_branch<'s, 'a>(out: &mut Writer, place: Place<'s, 'a>, more: u32, e: &'a Expr) {
    if is_short(place, e) {
        out.push(" ");
        write_block(out, place, e);
    } else {
        let inner = place.indented(more);
        out.line(inner.indent);
        write_block(out, inner, e);
    }
}

#[cycle(writing)]
fn write_tick<'s, 'a>(out: &mut Writer, place: Place<'s, 'a>, count: u32, e: &'a Expr) {
    out.push("tick ");
    out.push_count(u64::from(count));
    out.push(" in");
    write_branch(out, place, 0, e);
}

/// Writes an annotation, where the value is not taken apart at once.
#[cycle(writing)]
fn write_typed<'s, 'a>(
    out: &mut Writer,
    place: Place<'s, 'a>,
    e: &'a Expr,
    inner: &'a Expr,
    ty: &'a Ty,
) {
    match place.rest {
        Rest::Whole => write_any(out, place, e),
        Rest::Apart { .. } => write_block(
            out,
            Place {
                ty: Some(ty),
                ..place
            },
            inner,
        ),
    }
}

/// Writes what takes a value apart: at the ends of its subject, where values are built there.
#[cycle(writing)]
fn write_apart<'s, 'a>(out: &mut Writer, place: Place<'s, 'a>, subject: &'a Expr, by: Apart<'a>) {
    if let Some(known) = known_subject(place, subject) {
        return write_known(out, place, known, by);
    }
    if place.callee.is_none() || !is_built(place.callee, subject) {
        let inner = Place { ty: None, ..place };
        return write_taken(out, inner, place, by, subject);
    }
    let behind = place.rest;
    let rest = Rest::Apart {
        by,
        callee: place.callee,
        names: place.names,
        number: place.number,
        ty: place.ty,
        behind: &behind,
    };
    let number = out.new_number();
    let inner = Place {
        number,
        rest,
        ty: None,
        ..place
    };
    write_block(out, inner, subject);
}
