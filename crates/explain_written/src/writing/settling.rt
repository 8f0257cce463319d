// Variables that are taken apart, and of which it is known of what they are built.
use crate::known::{bare, is_known, variable};
use crate::names::{Known, Names, Written};
use crate::place::{Apart, Place};
use crate::settled::{Part, Settled, settle};
use crate::uses::{is_used_whole, known_name};
use crate::writer::Writer;
use crate::writing::{write_binding, write_block};
use raml_syntax::Expr;

/// Goes on at once where a value is taken apart of which it is known of what it is built.
#[cycle(writing)]
pub fn write_known<'s, 'a>(
    out: &mut Writer,
    place: Place<'s, 'a>,
    known: Known<'s, 'a>,
    by: Apart<'a>,
) {
    match settle(by, known.ty, known.value) {
        // the types of the source do not let this happen
        Settled::No => out.refuse(),
        Settled::Empty(body) => write_block(out, place, body),
        Settled::One(part, body) => write_known_parts(out, place, known, &[part], body),
        Settled::Two(one, two, body) => {
            write_known_parts(out, place, known, &[one, two], body);
        }
        Settled::Three(one, two, three, body) => {
            write_known_parts(out, place, known, &[one, two, three], body);
        }
    }
}

/// Goes on where parts of a value have names.
#[cycle(writing)]
fn write_known_parts<'s, 'a>(
    out: &mut Writer,
    place: Place<'s, 'a>,
    whole: Known<'s, 'a>,
    parts: &[Part<'a>],
    body: &'a Expr,
) {
    match parts {
        [] => write_block(out, place, body),
        [part, rest @ ..] => {
            let written = write_part(out, place, whole, *part, body);
            let names = with_part(place.names, *part, written, whole);
            let place = Place {
                names: &names,
                ..place
            };
            write_known_parts(out, place, whole, rest, body);
        }
    }
}

/// What stands for a part: the variable that it is, or a new name, to which it is bound. It is not bound where it is only taken
/// apart, and it is known of what it is built.
#[cycle(writing)]
fn write_part<'s, 'a>(
    out: &mut Writer,
    place: Place<'s, 'a>,
    whole: Known<'s, 'a>,
    part: Part<'a>,
    body: &'a Expr,
) -> Written<'a> {
    let name = &part.binder.name;
    if let Some(other) = variable(part.value) {
        return whole.names.find(other);
    }
    let written = Written {
        name,
        number: place.number,
    };
    if is_known(part.value) && !is_used_whole(known_name(name, part.value), body) {
        return written;
    }
    let value_place = Place {
        names: whole.names,
        ..place
    };
    write_binding(
        out,
        value_place,
        place.number,
        part.binder,
        part.value,
        part.ty,
    );
    written
}

/// One more name of a part.
fn with_part<'s, 'a>(
    names: &'s Names<'s, 'a>,
    part: Part<'a>,
    written: Written<'a>,
    whole: Known<'s, 'a>,
) -> Names<'s, 'a> {
    let name = &part.binder.name;
    if !is_known(part.value) {
        return names.with(name, written);
    }
    let known = Known {
        value: bare(part.value),
        ty: part.ty,
        names: whole.names,
    };
    names.with_known(name, written, known)
}
