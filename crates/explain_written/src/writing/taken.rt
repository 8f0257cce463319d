// Values that are taken apart, as the source says it.
ghost use Rattle.std.specs.Prelude.{◌≡◌};

use crate::names::Written;
use crate::place::{Apart, Place};
use crate::shape::may_end_in_match;
use crate::writer::Writer;
use crate::writing::operands::write_value;
use crate::writing::{write_block, write_branch};
use raml_syntax::{Binder, Expr};

/// Writes a `match` or a `let (..) =`, whose subject stands at `place`, and what follows at `behind`.
#[cycle(writing)]
pub fn write_taken<'s, 'a>(
    out: &mut Writer,
    place: Place<'s, 'a>,
    behind: Place<'s, 'a>,
    by: Apart<'a>,
    subject: &'a Expr,
)
    requires { place.depth ≡ behind.depth }
{
    match by {
        Apart::Pair {
            first,
            second,
            body,
        } => write_let_pair(out, place, behind, subject, first, second, body),
        Apart::List {
            empty,
            head,
            tail,
            body,
        } => {
            write_first(out, place, behind, subject, "nil", empty);
            write_list_arm(out, behind, head, tail, body);
        }
        Apart::Tree {
            empty,
            element,
            left,
            right,
            body,
        } => {
            write_first(out, place, behind, subject, "leaf", empty);
            write_tree_arm(out, behind, element, left, right, body);
        }
        Apart::Option {
            empty,
            content,
            body,
        } => {
            write_first(out, place, behind, subject, "none", empty);
            write_option_arm(out, behind, content, body);
        }
    }
}

fn push_binder(out: &mut Writer, x: &Binder, number: u32) {
    out.push_name(Written {
        name: &x.name,
        number,
    });
}

#[cycle(writing)]
fn write_let_pair<'s, 'a>(
    out: &mut Writer,
    place: Place<'s, 'a>,
    behind: Place<'s, 'a>,
    subject: &'a Expr,
    first: &'a Binder,
    second: &'a Binder,
    body: &'a Expr,
)
    requires { place.depth ≡ behind.depth }
{
    let number = behind.number;
    out.push("let (");
    push_binder(out, first, number);
    out.push(", ");
    push_binder(out, second, number);
    out.push(") = ");
    write_value(out, place, subject, place.ty);
    out.push(" in");
    out.line(place.indent);
    let one = behind.names.with_number(&first.name, number);
    let two = one.with_number(&second.name, number);
    write_block(
        out,
        Place {
            names: &two,
            ..behind
        },
        body,
    );
}

/// Writes a match up to its second branch.
#[cycle(writing)]
fn write_first<'s, 'a>(
    out: &mut Writer,
    place: Place<'s, 'a>,
    behind: Place<'s, 'a>,
    subject: &'a Expr,
    pattern: &str,
    empty: &'a Expr,
)
    requires { place.depth ≡ behind.depth }
{
    out.push("match ");
    write_value(out, place, subject, place.ty);
    out.push(" with");
    out.line(behind.indent.saturating_add(2));
    out.push(pattern);
    out.push(" ->");
    if may_end_in_match(behind, empty) {
        out.push(" (");
        write_branch(out, behind, 4, empty);
        out.push(")");
    } else {
        write_branch(out, behind, 4, empty);
    }
    out.line(behind.indent);
    out.push("| ");
}

#[cycle(writing)]
fn write_list_arm<'s, 'a>(
    out: &mut Writer,
    behind: Place<'s, 'a>,
    head: &'a Binder,
    tail: &'a Binder,
    body: &'a Expr,
) {
    let number = behind.number;
    push_binder(out, head, number);
    out.push(" :: ");
    push_binder(out, tail, number);
    out.push(" ->");
    let one = behind.names.with_number(&head.name, number);
    let two = one.with_number(&tail.name, number);
    let inner = Place {
        names: &two,
        ..behind
    };
    write_branch(out, inner, 4, body);
}

#[cycle(writing)]
fn write_tree_arm<'s, 'a>(
    out: &mut Writer,
    behind: Place<'s, 'a>,
    element: &'a Binder,
    left: &'a Binder,
    right: &'a Binder,
    body: &'a Expr,
) {
    let number = behind.number;
    out.push("node(");
    push_binder(out, element, number);
    out.push(", ");
    push_binder(out, left, number);
    out.push(", ");
    push_binder(out, right, number);
    out.push(") ->");
    let one = behind.names.with_number(&element.name, number);
    let two = one.with_number(&left.name, number);
    let three = two.with_number(&right.name, number);
    let inner = Place {
        names: &three,
        ..behind
    };
    write_branch(out, inner, 4, body);
}

#[cycle(writing)]
fn write_option_arm<'s, 'a>(
    out: &mut Writer,
    behind: Place<'s, 'a>,
    content: &'a Binder,
    body: &'a Expr,
) {
    let number = behind.number;
    out.push("some(");
    push_binder(out, content, number);
    out.push(") ->");
    let names = behind.names.with_number(&content.name, number);
    let inner = Place {
        names: &names,
        ..behind
    };
    write_branch(out, inner, 4, body);
}
