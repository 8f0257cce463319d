// The walk over `nil`, `leaf`, `none` and variables.
ghost use Rattle.raml_syntax.specs.Tree as t;
ghost use Rattle.simple_types.specs.Read.{Gives, walk_in};
ghost use Rattle.simple_types.specs.declared.walk.Env.{Env};

use crate::fault::{Shape, TypeFault};
use crate::types::{Node, TypeId, Types};
use crate::walk::{Env, settle_as, wrong};
use raml_syntax::{Name, Pos};

/// Walks `nil`, which is only checked.
pub fn walk_nil(types: &Types, at: Pos, want: Option<TypeId>) -> Result<TypeId, TypeFault>
    ensures { (env : Env) → Gives (walk_in env types.now.nodes.keys want (t.Nil at.0)) types.now.nodes.keys result }
{
    match want {
        None => Err(TypeFault::NeedsType { at }),
        Some(ty) => match types.node(ty) {
            Node::List(_) => Ok(ty),
            Node::Int | Node::Bool | Node::Pair(..) | Node::Tree(_) | Node::Opt(_) => {
                Err(wrong(types, at, ty, Shape::SomeList))
            }
        },
    }
}

/// Walks `leaf`, which is only checked.
pub fn walk_leaf(types: &Types, at: Pos, want: Option<TypeId>) -> Result<TypeId, TypeFault>
    ensures { (env : Env) → Gives (walk_in env types.now.nodes.keys want (t.Leaf at.0)) types.now.nodes.keys result }
{
    match want {
        None => Err(TypeFault::NeedsType { at }),
        Some(ty) => match types.node(ty) {
            Node::Tree(_) => Ok(ty),
            Node::Int | Node::Bool | Node::Pair(..) | Node::List(_) | Node::Opt(_) => {
                Err(wrong(types, at, ty, Shape::SomeTree))
            }
        },
    }
}

/// Walks `none`, which is only checked.
pub fn walk_nothing(types: &Types, at: Pos, want: Option<TypeId>) -> Result<TypeId, TypeFault>
    ensures { (env : Env) → Gives (walk_in env types.now.nodes.keys want (t.Nothing at.0)) types.now.nodes.keys result }
{
    match want {
        None => Err(TypeFault::NeedsType { at }),
        Some(ty) => match types.node(ty) {
            Node::Opt(_) => Ok(ty),
            Node::Int | Node::Bool | Node::Pair(..) | Node::List(_) | Node::Tree(_) => {
                Err(wrong(types, at, ty, Shape::SomeOption))
            }
        },
    }
}

/// Walks a variable.
pub fn walk_variable<'s, 'a>(
    types: &Types,
    env: Env<'s, 'a>,
    at: Pos,
    name: &Name,
    want: Option<TypeId>,
) -> Result<TypeId, TypeFault>
    ensures { Gives (walk_in env.entry types.now.nodes.keys want (t.Var at.0 name.now)) types.now.nodes.keys result }
{
    match env.scope.find(name.text()) {
        Some(ty) => settle_as(types, at, ty, want),
        None => Err(TypeFault::Unknown { at }),
    }
}
