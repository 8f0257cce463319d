// Values that are taken apart where they are built.
use crate::place::Apart;
use raml_syntax::{Binder, Expr, Form, Ty};

/// A part of a value, the name to which it is bound, and its type where that is known.
#[derive(Clone, Copy)]
pub struct Part<'a> {
    pub binder: &'a Binder,
    pub value: &'a Expr,
    pub ty: Option<&'a Ty>,
}

/// What follows where a value is taken apart.
#[derive(Clone, Copy)]
pub enum Settled<'a> {
    /// It is not known of what the value is built.
    No,
    /// The value is empty.
    Empty(&'a Expr),
    One(Part<'a>, &'a Expr),
    Two(Part<'a>, Part<'a>, &'a Expr),
    Three(Part<'a>, Part<'a>, Part<'a>, &'a Expr),
}

fn part_of<'a>(binder: &'a Binder, value: &'a Expr, ty: Option<&'a Ty>) -> Part<'a> {
    Part { binder, value, ty }
}

/// The type of the first part of a pair.
fn first_type(ty: Option<&Ty>) -> Option<&Ty> {
    match ty {
        Some(Ty::Pair(first, _)) => Some(first),
        _ => None,
    }
}

/// The type of the second part of a pair.
fn second_type(ty: Option<&Ty>) -> Option<&Ty> {
    match ty {
        Some(Ty::Pair(_, second)) => Some(second),
        _ => None,
    }
}

/// The type of an element of a list or of a tree, or of the content of an option.
fn element_type(ty: Option<&Ty>) -> Option<&Ty> {
    match ty {
        Some(Ty::List(element) | Ty::Tree(element) | Ty::Opt(element)) => Some(element),
        _ => None,
    }
}

/// What follows where an expression of this type, if it is known, is taken apart.
pub fn settle<'a>(by: Apart<'a>, ty: Option<&'a Ty>, e: &'a Expr) -> Settled<'a> {
    match by {
        Apart::Pair {
            first,
            second,
            body,
        } => settled_pair(first, second, body, ty, e),
        Apart::List {
            empty,
            head,
            tail,
            body,
        } => settled_list(empty, head, tail, body, ty, e),
        Apart::Tree {
            empty,
            element,
            left,
            right,
            body,
        } => settled_tree(empty, [element, left, right], body, ty, e),
        Apart::Option {
            empty,
            content,
            body,
        } => settled_option(empty, content, body, ty, e),
    }
}

fn settled_pair<'a>(
    first: &'a Binder,
    second: &'a Binder,
    body: &'a Expr,
    ty: Option<&'a Ty>,
    e: &'a Expr,
) -> Settled<'a> {
    match &e.form {
        Form::Pair(a, b) => Settled::Two(
            part_of(first, a, first_type(ty)),
            part_of(second, b, second_type(ty)),
            body,
        ),
        _ => Settled::No,
    }
}

fn settled_list<'a>(
    empty: &'a Expr,
    head: &'a Binder,
    tail: &'a Binder,
    body: &'a Expr,
    ty: Option<&'a Ty>,
    e: &'a Expr,
) -> Settled<'a> {
    match &e.form {
        Form::Nil => Settled::Empty(empty),
        Form::Cons(a, b) => Settled::Two(
            part_of(head, a, element_type(ty)),
            part_of(tail, b, ty),
            body,
        ),
        _ => Settled::No,
    }
}

fn settled_tree<'a>(
    empty: &'a Expr,
    names: [&'a Binder; 3],
    body: &'a Expr,
    ty: Option<&'a Ty>,
    e: &'a Expr,
) -> Settled<'a> {
    match &e.form {
        Form::Leaf => Settled::Empty(empty),
        Form::Node(a, b, c) => {
            let [element, left, right] = names;
            Settled::Three(
                part_of(element, a, element_type(ty)),
                part_of(left, b, ty),
                part_of(right, c, ty),
                body,
            )
        }
        _ => Settled::No,
    }
}

fn settled_option<'a>(
    empty: &'a Expr,
    content: &'a Binder,
    body: &'a Expr,
    ty: Option<&'a Ty>,
    e: &'a Expr,
) -> Settled<'a> {
    match &e.form {
        Form::Nothing => Settled::Empty(empty),
        Form::Just(a) => Settled::One(part_of(content, a, element_type(ty)), body),
        _ => Settled::No,
    }
}
