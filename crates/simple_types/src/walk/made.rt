// The walk over pairs, lists, trees and options that are made.
ghost use Rattle.std.specs.Prelude.{Some, None};
ghost use Rattle.raml_syntax.specs.Read.{term_of};
ghost use Rattle.raml_syntax.specs.Tree as t;
ghost use Rattle.raml_syntax.specs.Node.{AllNodes, FewArguments};
ghost use Rattle.simple_types.specs.Table.{placed};
ghost use Rattle.simple_types.specs.Numbered.{gives};
ghost use Rattle.simple_types.specs.Read.{Gives, walk_in};
ghost use Rattle.simple_types.specs.Walk.{and_then};
ghost use Rattle.simple_types.specs.declared.types.Node.TheVariants as n;

use crate::fault::{Shape, TypeFault};
use crate::types::{Node, TypeId, Types};
use crate::walk::{Env, walk, wrong};
use raml_syntax::{Expr, Pos};

/// Finds the type of `(first, second)`.
#[cycle(walk)]
fn find_pair<'s, 'a>(
    types: &mut Types,
    env: Env<'s, 'a>,
    first: &'a Expr,
    second: &'a Expr,
) -> Result<TypeId, TypeFault>
    requires few { AllNodes FewArguments (term_of first.now) × AllNodes FewArguments (term_of second.now) }
    ensures { Gives (and_then (walk_in env.entry types.old.nodes.keys None (term_of first.now)) (λ A.
        and_then (walk_in env.entry A.0 None (term_of second.now)) (λ B.
        gives (placed B.0 (n.Pair A.1 B.1))))) types.new.nodes.keys result }
{
    let left = walk(types, env, first, None)?;
    let right = walk(types, env, second, None)?;
    Ok(types.place(Node::Pair(left, right))?)
}

/// Checks the two parts of a pair against the parts of the type that is wanted.
#[cycle(walk)]
fn check_parts<'s, 'a>(
    types: &mut Types,
    env: Env<'s, 'a>,
    first: &'a Expr,
    second: &'a Expr,
    left: TypeId,
    right: TypeId,
    want: TypeId,
) -> Result<TypeId, TypeFault>
    requires few { AllNodes FewArguments (term_of first.now) × AllNodes FewArguments (term_of second.now) }
    ensures { Gives (and_then (walk_in env.entry types.old.nodes.keys (Some left) (term_of first.now)) (λ A.
        and_then (walk_in env.entry A.0 (Some right) (term_of second.now)) (λ B.
        gives (B.0, want)))) types.new.nodes.keys result }
{
    walk(types, env, first, Some(left))?;
    walk(types, env, second, Some(right))?;
    Ok(want)
}

/// Checks `(first, second)` against a type.
#[cycle(walk)]
fn check_pair<'s, 'a>(
    types: &mut Types,
    env: Env<'s, 'a>,
    at: Pos,
    first: &'a Expr,
    second: &'a Expr,
    want: TypeId,
) -> Result<TypeId, TypeFault>
    requires few { AllNodes FewArguments (term_of first.now) × AllNodes FewArguments (term_of second.now) }
    ensures { Gives (walk_in env.entry types.old.nodes.keys (Some want)
        (t.Pair at.0 (term_of first.now) (term_of second.now))) types.new.nodes.keys result }
{
    match types.node(want) {
        Node::Pair(left, right) => check_parts(types, env, first, second, left, right, want),
        Node::Int | Node::Bool | Node::List(_) | Node::Tree(_) | Node::Opt(_) => {
            Err(wrong(types, at, want, Shape::SomePair))
        }
    }
}

/// Walks `(first, second)`.
#[cycle(walk)]
pub fn walk_pair<'s, 'a>(
    types: &mut Types,
    env: Env<'s, 'a>,
    at: Pos,
    first: &'a Expr,
    second: &'a Expr,
    want: Option<TypeId>,
) -> Result<TypeId, TypeFault>
    requires few { AllNodes FewArguments (term_of first.now) × AllNodes FewArguments (term_of second.now) }
    ensures { Gives (walk_in env.entry types.old.nodes.keys want
        (t.Pair at.0 (term_of first.now) (term_of second.now))) types.new.nodes.keys result }
{
    match want {
        None => find_pair(types, env, first, second),
        Some(ty) => check_pair(types, env, at, first, second, ty),
    }
}

/// Finds the type of `head :: tail`.
#[cycle(walk)]
fn find_cons<'s, 'a>(
    types: &mut Types,
    env: Env<'s, 'a>,
    head: &'a Expr,
    tail: &'a Expr,
) -> Result<TypeId, TypeFault>
    requires few { AllNodes FewArguments (term_of head.now) × AllNodes FewArguments (term_of tail.now) }
    ensures { Gives (and_then (walk_in env.entry types.old.nodes.keys None (term_of head.now)) (λ A.
        and_then (gives (placed A.0 (n.List A.1)))
        (λ L. walk_in env.entry L.0 (Some L.1) (term_of tail.now)))) types.new.nodes.keys result }
{
    let element = walk(types, env, head, None)?;
    let list = types.place(Node::List(element))?;
    walk(types, env, tail, Some(list))
}

/// Checks `head :: tail` against a list's type and that of its elements.
#[cycle(walk)]
fn check_list<'s, 'a>(
    types: &mut Types,
    env: Env<'s, 'a>,
    head: &'a Expr,
    tail: &'a Expr,
    element: TypeId,
    want: TypeId,
) -> Result<TypeId, TypeFault>
    requires few { AllNodes FewArguments (term_of head.now) × AllNodes FewArguments (term_of tail.now) }
    ensures { Gives (and_then (walk_in env.entry types.old.nodes.keys (Some element) (term_of head.now))
        (λ A. walk_in env.entry A.0 (Some want) (term_of tail.now))) types.new.nodes.keys result }
{
    walk(types, env, head, Some(element))?;
    walk(types, env, tail, Some(want))
}

/// Checks `head :: tail` against a type.
#[cycle(walk)]
fn check_cons<'s, 'a>(
    types: &mut Types,
    env: Env<'s, 'a>,
    at: Pos,
    head: &'a Expr,
    tail: &'a Expr,
    want: TypeId,
) -> Result<TypeId, TypeFault>
    requires few { AllNodes FewArguments (term_of head.now) × AllNodes FewArguments (term_of tail.now) }
    ensures { Gives (walk_in env.entry types.old.nodes.keys (Some want)
        (t.Cons at.0 (term_of head.now) (term_of tail.now))) types.new.nodes.keys result }
{
    match types.node(want) {
        Node::List(element) => check_list(types, env, head, tail, element, want),
        Node::Int | Node::Bool | Node::Pair(..) | Node::Tree(_) | Node::Opt(_) => {
            Err(wrong(types, at, want, Shape::SomeList))
        }
    }
}

/// Walks `head :: tail`.
#[cycle(walk)]
pub fn walk_cons<'s, 'a>(
    types: &mut Types,
    env: Env<'s, 'a>,
    at: Pos,
    head: &'a Expr,
    tail: &'a Expr,
    want: Option<TypeId>,
) -> Result<TypeId, TypeFault>
    requires few { AllNodes FewArguments (term_of head.now) × AllNodes FewArguments (term_of tail.now) }
    ensures { Gives (walk_in env.entry types.old.nodes.keys want
        (t.Cons at.0 (term_of head.now) (term_of tail.now))) types.new.nodes.keys result }
{
    match want {
        None => find_cons(types, env, head, tail),
        Some(ty) => check_cons(types, env, at, head, tail, ty),
    }
}

/// Checks two trees against one type.
#[cycle(walk)]
fn check_trees<'s, 'a>(
    types: &mut Types,
    env: Env<'s, 'a>,
    left: &'a Expr,
    right: &'a Expr,
    want: TypeId,
) -> Result<TypeId, TypeFault>
    requires few { AllNodes FewArguments (term_of left.now) × AllNodes FewArguments (term_of right.now) }
    ensures { Gives (and_then (walk_in env.entry types.old.nodes.keys (Some want) (term_of left.now))
        (λ A. walk_in env.entry A.0 (Some want) (term_of right.now))) types.new.nodes.keys result }
{
    walk(types, env, left, Some(want))?;
    walk(types, env, right, Some(want))
}

/// Finds the type of `node(element, left, right)`.
#[cycle(walk)]
fn find_node<'s, 'a>(
    types: &mut Types,
    env: Env<'s, 'a>,
    element: &'a Expr,
    left: &'a Expr,
    right: &'a Expr,
) -> Result<TypeId, TypeFault>
    requires few { AllNodes FewArguments (term_of element.now)
        × AllNodes FewArguments (term_of left.now) × AllNodes FewArguments (term_of right.now) }
    ensures { Gives (and_then (walk_in env.entry types.old.nodes.keys None (term_of element.now)) (λ A.
        and_then (gives (placed A.0 (n.Tree A.1))) (λ L. and_then (walk_in env.entry L.0 (Some L.1) (term_of left.now)) (λ B.
        walk_in env.entry B.0 (Some L.1) (term_of right.now))))) types.new.nodes.keys result }
{
    let found = walk(types, env, element, None)?;
    let tree = types.place(Node::Tree(found))?;
    check_trees(types, env, left, right, tree)
}

/// Checks `node(element, left, right)` against a tree's type and that of its elements.
#[cycle(walk)]
fn check_tree<'s, 'a>(
    types: &mut Types,
    env: Env<'s, 'a>,
    element: &'a Expr,
    left: &'a Expr,
    right: &'a Expr,
    item: TypeId,
    want: TypeId,
) -> Result<TypeId, TypeFault>
    requires few { AllNodes FewArguments (term_of element.now)
        × AllNodes FewArguments (term_of left.now) × AllNodes FewArguments (term_of right.now) }
    ensures { Gives (and_then (walk_in env.entry types.old.nodes.keys (Some item) (term_of element.now)) (λ A.
        and_then (walk_in env.entry A.0 (Some want) (term_of left.now)) (λ B.
        walk_in env.entry B.0 (Some want) (term_of right.now)))) types.new.nodes.keys result }
{
    walk(types, env, element, Some(item))?;
    check_trees(types, env, left, right, want)
}

/// Checks `node(element, left, right)` against a type.
#[cycle(walk)]
fn check_node<'s, 'a>(
    types: &mut Types,
    env: Env<'s, 'a>,
    at: Pos,
    element: &'a Expr,
    left: &'a Expr,
    right: &'a Expr,
    want: TypeId,
) -> Result<TypeId, TypeFault>
    requires few { AllNodes FewArguments (term_of element.now)
        × AllNodes FewArguments (term_of left.now) × AllNodes FewArguments (term_of right.now) }
    ensures { Gives (walk_in env.entry types.old.nodes.keys (Some want)
        (t.Node at.0 (term_of element.now) (term_of left.now) (term_of right.now))) types.new.nodes.keys result }
{
    match types.node(want) {
        Node::Tree(item) => check_tree(types, env, element, left, right, item, want),
        Node::Int | Node::Bool | Node::Pair(..) | Node::List(_) | Node::Opt(_) => {
            Err(wrong(types, at, want, Shape::SomeTree))
        }
    }
}

/// Walks `node(element, left, right)`.
#[cycle(walk)]
pub fn walk_node<'s, 'a>(
    types: &mut Types,
    env: Env<'s, 'a>,
    at: Pos,
    element: &'a Expr,
    left: &'a Expr,
    right: &'a Expr,
    want: Option<TypeId>,
) -> Result<TypeId, TypeFault>
    requires few { AllNodes FewArguments (term_of element.now)
        × AllNodes FewArguments (term_of left.now) × AllNodes FewArguments (term_of right.now) }
    ensures { Gives (walk_in env.entry types.old.nodes.keys want
        (t.Node at.0 (term_of element.now) (term_of left.now) (term_of right.now))) types.new.nodes.keys result }
{
    match want {
        None => find_node(types, env, element, left, right),
        Some(ty) => check_node(types, env, at, element, left, right, ty),
    }
}

/// Finds the type of `some(content)`.
#[cycle(walk)]
fn find_just<'s, 'a>(
    types: &mut Types,
    env: Env<'s, 'a>,
    content: &'a Expr,
) -> Result<TypeId, TypeFault>
    requires few { AllNodes FewArguments (term_of content.now) }
    ensures { Gives (and_then (walk_in env.entry types.old.nodes.keys None (term_of content.now))
        (λ A. gives (placed A.0 (n.Opt A.1)))) types.new.nodes.keys result }
{
    let found = walk(types, env, content, None)?;
    Ok(types.place(Node::Opt(found))?)
}

/// Checks `some(content)` against an option's type and that of its content.
#[cycle(walk)]
fn check_content<'s, 'a>(
    types: &mut Types,
    env: Env<'s, 'a>,
    content: &'a Expr,
    part: TypeId,
    want: TypeId,
) -> Result<TypeId, TypeFault>
    requires few { AllNodes FewArguments (term_of content.now) }
    ensures { Gives (and_then (walk_in env.entry types.old.nodes.keys (Some part) (term_of content.now))
        (λ A. gives (A.0, want))) types.new.nodes.keys result }
{
    walk(types, env, content, Some(part))?;
    Ok(want)
}

/// Checks `some(content)` against a type.
#[cycle(walk)]
fn check_just<'s, 'a>(
    types: &mut Types,
    env: Env<'s, 'a>,
    at: Pos,
    content: &'a Expr,
    want: TypeId,
) -> Result<TypeId, TypeFault>
    requires few { AllNodes FewArguments (term_of content.now) }
    ensures { Gives (walk_in env.entry types.old.nodes.keys (Some want) (t.Just at.0 (term_of content.now))) types.new.nodes.keys result }
{
    match types.node(want) {
        Node::Opt(part) => check_content(types, env, content, part, want),
        Node::Int | Node::Bool | Node::Pair(..) | Node::List(_) | Node::Tree(_) => {
            Err(wrong(types, at, want, Shape::SomeOption))
        }
    }
}

/// Walks `some(content)`.
#[cycle(walk)]
pub fn walk_just<'s, 'a>(
    types: &mut Types,
    env: Env<'s, 'a>,
    at: Pos,
    content: &'a Expr,
    want: Option<TypeId>,
) -> Result<TypeId, TypeFault>
    requires few { AllNodes FewArguments (term_of content.now) }
    ensures { Gives (walk_in env.entry types.old.nodes.keys want (t.Just at.0 (term_of content.now))) types.new.nodes.keys result }
{
    match want {
        None => find_just(types, env, content),
        Some(ty) => check_just(types, env, at, content, ty),
    }
}
