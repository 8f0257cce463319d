// The walk over `match`.
ghost use Rattle.std.specs.Prelude.{Some, [], ◌∷◌};
ghost use Rattle.raml_syntax.specs.Read.{term_of, bound_of};
ghost use Rattle.raml_syntax.specs.Tree as t;
ghost use Rattle.raml_syntax.specs.Node.{AllNodes, FewArguments};
ghost use Rattle.simple_types.specs.Read.{Gives, Passes, walk_in, walk_below, local_of};
ghost use Rattle.simple_types.specs.Walk.{and_then, distinct};

use crate::fault::{Shape, TypeFault};
use crate::types::{Node, TypeId, Types};
use crate::walk::bindings::differ_two;
use crate::walk::{
    Env, Local, place_of, walk, walk_below_one, walk_below_three, walk_below_two, wrong_subject,
};
use raml_syntax::{Binder, Expr};

/// Tells whether three names that are bound together differ.
fn differ_three(x: &Binder, y: &Binder, z: &Binder) -> Result<(), TypeFault>
    ensures { Passes (distinct (bound_of x.now ∷ bound_of y.now ∷ bound_of z.now ∷ [])) result }
{
    if y.name.text() == x.name.text() {
        return Err(TypeFault::Twice { at: y.at });
    }
    if z.name.text() == x.name.text() || z.name.text() == y.name.text() {
        return Err(TypeFault::Twice { at: z.at });
    }
    Ok(())
}

/// Walks the branches of a match on a list with these elements.
#[cycle(walk)]
fn walk_list_branches<'s, 'a>(
    types: &mut Types,
    env: Env<'s, 'a>,
    empty: &'a Expr,
    head: Local<'a>,
    tail: Local<'a>,
    rest: &'a Expr,
    want: Option<TypeId>,
) -> Result<TypeId, TypeFault>
    requires few { AllNodes FewArguments (term_of empty.now) × AllNodes FewArguments (term_of rest.now) }
    ensures { Gives (and_then (walk_in env.entry types.old.nodes.keys want (term_of empty.now)) (λ A.
        walk_below env.entry A.0 (local_of tail.entry ∷ local_of head.entry ∷ []) (Some A.1)
        (term_of rest.now))) types.new.nodes.keys result }
{
    let found = walk(types, env, empty, want)?;
    walk_below_two(types, env, head, tail, rest, Some(found))
}

/// Walks a match on a list, whose own place tells nothing.
#[cycle(walk)]
pub fn walk_match_list<'s, 'a>(
    types: &mut Types,
    env: Env<'s, 'a>,
    subject: &'a Expr,
    empty: &'a Expr,
    x: &'a Binder,
    y: &'a Binder,
    rest: &'a Expr,
    want: Option<TypeId>,
) -> Result<TypeId, TypeFault>
    requires few { AllNodes FewArguments (term_of subject.now)
        × AllNodes FewArguments (term_of empty.now) × AllNodes FewArguments (term_of rest.now) }
    ensures { Gives (walk_in env.entry types.old.nodes.keys want
        (t.MatchList 0 (term_of subject.now) (term_of empty.now) (bound_of x.now) (bound_of y.now)
        (term_of rest.now))) types.new.nodes.keys result }
{
    differ_two(x, y)?;
    let list = walk(types, env, subject, None)?;
    match types.node(list) {
        Node::List(part) => {
            let head = Local {
                name: &x.name,
                ty: part,
            };
            let tail = Local {
                name: &y.name,
                ty: list,
            };
            walk_list_branches(types, env, empty, head, tail, rest, want)
        }
        Node::Int | Node::Bool | Node::Pair(..) | Node::Tree(_) | Node::Opt(_) => {
            Err(wrong_subject(types, place_of(subject), Shape::SomeList, list))
        }
    }
}

/// Walks the branches of a match on a tree of this type.
#[cycle(walk)]
fn walk_tree_branches<'s, 'a>(
    types: &mut Types,
    env: Env<'s, 'a>,
    empty: &'a Expr,
    element: Local<'a>,
    left: Local<'a>,
    right: Local<'a>,
    rest: &'a Expr,
    want: Option<TypeId>,
) -> Result<TypeId, TypeFault>
    requires few { AllNodes FewArguments (term_of empty.now) × AllNodes FewArguments (term_of rest.now) }
    ensures { Gives (and_then (walk_in env.entry types.old.nodes.keys want (term_of empty.now)) (λ A.
        walk_below env.entry A.0 (local_of right.entry ∷ local_of left.entry ∷ local_of element.entry ∷ [])
        (Some A.1) (term_of rest.now))) types.new.nodes.keys result }
{
    let found = walk(types, env, empty, want)?;
    walk_below_three(types, env, element, left, right, rest, Some(found))
}

/// Walks a match on a tree, whose own place tells nothing.
#[cycle(walk)]
pub fn walk_match_tree<'s, 'a>(
    types: &mut Types,
    env: Env<'s, 'a>,
    subject: &'a Expr,
    empty: &'a Expr,
    x: &'a Binder,
    y: &'a Binder,
    z: &'a Binder,
    rest: &'a Expr,
    want: Option<TypeId>,
) -> Result<TypeId, TypeFault>
    requires few { AllNodes FewArguments (term_of subject.now)
        × AllNodes FewArguments (term_of empty.now) × AllNodes FewArguments (term_of rest.now) }
    ensures { Gives (walk_in env.entry types.old.nodes.keys want
        (t.MatchTree 0 (term_of subject.now) (term_of empty.now) (bound_of x.now) (bound_of y.now)
        (bound_of z.now) (term_of rest.now))) types.new.nodes.keys result }
{
    differ_three(x, y, z)?;
    let tree = walk(types, env, subject, None)?;
    match types.node(tree) {
        Node::Tree(part) => {
            let element = Local {
                name: &x.name,
                ty: part,
            };
            let left = Local {
                name: &y.name,
                ty: tree,
            };
            let right = Local {
                name: &z.name,
                ty: tree,
            };
            walk_tree_branches(types, env, empty, element, left, right, rest, want)
        }
        Node::Int | Node::Bool | Node::Pair(..) | Node::List(_) | Node::Opt(_) => {
            Err(wrong_subject(types, place_of(subject), Shape::SomeTree, tree))
        }
    }
}

/// Walks the branches of a match on an option with this content.
#[cycle(walk)]
fn walk_option_branches<'s, 'a>(
    types: &mut Types,
    env: Env<'s, 'a>,
    empty: &'a Expr,
    content: Local<'a>,
    rest: &'a Expr,
    want: Option<TypeId>,
) -> Result<TypeId, TypeFault>
    requires few { AllNodes FewArguments (term_of empty.now) × AllNodes FewArguments (term_of rest.now) }
    ensures { Gives (and_then (walk_in env.entry types.old.nodes.keys want (term_of empty.now)) (λ A.
        walk_below env.entry A.0 (local_of content.entry ∷ []) (Some A.1) (term_of rest.now))) types.new.nodes.keys result }
{
    let found = walk(types, env, empty, want)?;
    walk_below_one(types, env, content, rest, Some(found))
}

/// Walks a match on an option, whose own place tells nothing.
#[cycle(walk)]
pub fn walk_match_option<'s, 'a>(
    types: &mut Types,
    env: Env<'s, 'a>,
    subject: &'a Expr,
    empty: &'a Expr,
    x: &'a Binder,
    rest: &'a Expr,
    want: Option<TypeId>,
) -> Result<TypeId, TypeFault>
    requires few { AllNodes FewArguments (term_of subject.now)
        × AllNodes FewArguments (term_of empty.now) × AllNodes FewArguments (term_of rest.now) }
    ensures { Gives (walk_in env.entry types.old.nodes.keys want
        (t.MatchOption 0 (term_of subject.now) (term_of empty.now) (bound_of x.now) (term_of rest.now))) types.new.nodes.keys result }
{
    let option = walk(types, env, subject, None)?;
    match types.node(option) {
        Node::Opt(part) => {
            let content = Local {
                name: &x.name,
                ty: part,
            };
            walk_option_branches(types, env, empty, content, rest, want)
        }
        Node::Int | Node::Bool | Node::Pair(..) | Node::List(_) | Node::Tree(_) => {
            Err(wrong_subject(types, place_of(subject), Shape::SomeOption, option))
        }
    }
}
