// The walk over `let`.
ghost use Rattle.std.specs.Prelude.{[], ◌∷◌};
ghost use Rattle.raml_syntax.specs.Read.{term_of, bound_of};
ghost use Rattle.raml_syntax.specs.Tree as t;
ghost use Rattle.raml_syntax.specs.Node.{AllNodes, FewArguments};
ghost use Rattle.simple_types.specs.Read.{Gives, Passes, walk_in};
ghost use Rattle.simple_types.specs.Walk.{distinct};

use crate::fault::{Shape, TypeFault};
use crate::types::{Node, TypeId, Types};
use crate::walk::{Env, Local, place_of, walk, walk_below_one, walk_below_two, wrong_subject};
use raml_syntax::{Binder, Expr};

/// Tells whether two names that are bound together differ.
pub fn differ_two(x: &Binder, y: &Binder) -> Result<(), TypeFault>
    ensures { Passes (distinct (bound_of x.now ∷ bound_of y.now ∷ [])) result }
{
    if y.name.text() == x.name.text() {
        return Err(TypeFault::Twice { at: y.at });
    }
    Ok(())
}

/// Walks `let x = bound in rest`, whose own place tells nothing.
#[cycle(walk)]
pub fn walk_let<'s, 'a>(
    types: &mut Types,
    env: Env<'s, 'a>,
    x: &'a Binder,
    bound: &'a Expr,
    rest: &'a Expr,
    want: Option<TypeId>,
) -> Result<TypeId, TypeFault>
    requires few { AllNodes FewArguments (term_of bound.now) × AllNodes FewArguments (term_of rest.now) }
    ensures { Gives (walk_in env.entry types.old.nodes.keys want
        (t.Let 0 (bound_of x.now) (term_of bound.now) (term_of rest.now))) types.new.nodes.keys result }
{
    let ty = walk(types, env, bound, None)?;
    let name = &x.name;
    walk_below_one(types, env, Local { name, ty }, rest, want)
}

/// Walks `let (x, y) = bound in rest`, whose own place tells nothing.
#[cycle(walk)]
pub fn walk_let_pair<'s, 'a>(
    types: &mut Types,
    env: Env<'s, 'a>,
    x: &'a Binder,
    y: &'a Binder,
    bound: &'a Expr,
    rest: &'a Expr,
    want: Option<TypeId>,
) -> Result<TypeId, TypeFault>
    requires few { AllNodes FewArguments (term_of bound.now) × AllNodes FewArguments (term_of rest.now) }
    ensures { Gives (walk_in env.entry types.old.nodes.keys want
        (t.LetPair 0 (bound_of x.now) (bound_of y.now) (term_of bound.now) (term_of rest.now))) types.new.nodes.keys result }
{
    differ_two(x, y)?;
    let pair = walk(types, env, bound, None)?;
    match types.node(pair) {
        Node::Pair(left, right) => {
            let first = Local {
                name: &x.name,
                ty: left,
            };
            let second = Local {
                name: &y.name,
                ty: right,
            };
            walk_below_two(types, env, first, second, rest, want)
        }
        Node::Int | Node::Bool | Node::List(_) | Node::Tree(_) | Node::Opt(_) => {
            Err(wrong_subject(types, place_of(bound), Shape::SomePair, pair))
        }
    }
}
