// Calls that are written out.
use crate::callee::Callee;
use crate::known::{bare, is_known, variable};
use crate::names::{Known, Names, Written};
use crate::place::{Place, Rest};
use crate::shape::needs_type;
use crate::uses::{is_used_whole, known_name};
use crate::writer::Writer;
use crate::writing::ends::write_end;
use crate::writing::operands::write_value;
use crate::writing::write_block;
use raml_syntax::{Expr, Name, Param};

/// Writes a call, which is written out where it is one of the function.
#[cycle(writing)]
pub fn write_call<'s, 'a>(
    out: &mut Writer,
    place: Place<'s, 'a>,
    e: &'a Expr,
    name: &Name,
    args: &'a [Expr],
) {
    match place.called(name, args) {
        Some(callee) => write_out(out, place, callee, args),
        None => write_end(out, place, e),
    }
}

/// Writes the body of a function for a call, with its type where that is needed.
#[cycle(writing)]
fn write_out<'s, 'a>(out: &mut Writer, place: Place<'s, 'a>, callee: Callee<'a>, args: &'a [Expr]) {
    let fun = callee.fun;
    let number = out.new_number();
    let inner = Place {
        callee: callee.inside(),
        names: &Names::Empty,
        number,
        ty: Some(&fun.result),
        ..place
    };
    if matches!(place.rest, Rest::Whole) && needs_type(&fun.body) {
        out.push("(");
        write_arguments(out, place, inner, &fun.params, args, &fun.body);
        out.push(" : ");
        out.push_ty(&fun.result);
        out.push(")");
    } else {
        write_arguments(out, place, inner, &fun.params, args, &fun.body);
    }
}

/// Writes the arguments for the parameters, and then the body. The arguments stand at `place`, and the body at `inner`.
#[cycle(writing)]
fn write_arguments<'s, 'a>(
    out: &mut Writer,
    place: Place<'s, 'a>,
    inner: Place<'s, 'a>,
    params: &'a [Param],
    args: &'a [Expr],
    body: &'a Expr,
) {
    match params {
        [] => write_block(out, inner, body),
        [param, params @ ..] => match args {
            [] => write_block(out, inner, body),
            [arg, args @ ..] => {
                let Some(inner) = inner.inside(out) else {
                    return;
                };
                let place = Place {
                    depth: inner.depth,
                    ..place
                };
                let written = write_argument(out, place, inner.number, param, arg, body);
                let names = with_argument(inner.names, param, written, arg, place.names);
                let inner = Place {
                    names: &names,
                    ..inner
                };
                write_arguments(out, place, inner, params, args, body);
            }
        },
    }
}

/// One more parameter, for which a name stands, and of which it may be known of what it is built.
fn with_argument<'s, 'a>(
    names: &'s Names<'s, 'a>,
    param: &'a Param,
    written: Written<'a>,
    arg: &'a Expr,
    at: &'s Names<'s, 'a>,
) -> Names<'s, 'a> {
    if !is_known(arg) {
        return names.with(&param.name, written);
    }
    let known = Known {
        value: bare(arg),
        ty: Some(&param.ty),
        names: at,
    };
    names.with_known(&param.name, written, known)
}

/// What stands for a parameter: the variable that is its argument, or a new name, to which the argument is bound. It is not bound
/// where it is only taken apart, and it is known of what it is built.
#[cycle(writing)]
fn write_argument<'s, 'a>(
    out: &mut Writer,
    place: Place<'s, 'a>,
    number: u32,
    param: &'a Param,
    arg: &'a Expr,
    body: &'a Expr,
) -> Written<'a> {
    if let Some(name) = variable(arg) {
        return place.names.find(name);
    }
    let written = Written {
        name: &param.name,
        number,
    };
    if is_known(arg) && !is_used_whole(known_name(&param.name, arg), body) {
        return written;
    }
    out.push("let ");
    out.push_name(written);
    out.push(" = ");
    write_value(out, place, arg, Some(&param.ty));
    out.push(" in");
    out.line(place.indent);
    written
}
