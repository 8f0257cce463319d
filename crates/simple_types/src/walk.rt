// The walk over expressions: each type is found, or checked against one that is wanted.
ghost use Rattle.std.specs.Prelude.{◌≡◌, [], ◌∷◌};
ghost use Rattle.raml_syntax.specs.Read.{term_of};
ghost use Rattle.raml_syntax.specs.Node.{AllNodes, FewArguments};
ghost use Rattle.simple_types.specs.Fault as f;
ghost use Rattle.simple_types.specs.Table.{type_of};
ghost use Rattle.simple_types.specs.Numbered.{settle};
ghost use Rattle.simple_types.specs.Read.{kind_of, IsWanted, Gives, walk_in, walk_below, local_of};
ghost use Rattle.simple_types.specs.Walk.{place};

mod bindings;
mod calls;
mod leaves;
mod made;
mod matches;
mod operators;

use crate::fault::{Shape, TypeFault};
use crate::functions::Functions;
use crate::scope::Scope;
use crate::types::{BOOL, INT, TypeId, Types};
use crate::walk::bindings::{walk_let, walk_let_pair};
use crate::walk::calls::walk_call;
use crate::walk::leaves::{walk_leaf, walk_nil, walk_nothing, walk_variable};
use crate::walk::made::{walk_cons, walk_just, walk_node, walk_pair};
use crate::walk::matches::{walk_match_list, walk_match_option, walk_match_tree};
use crate::walk::operators::{walk_if, walk_integers, walk_not, walk_typed};
use raml_syntax::{Expr, Form, Name, Pos};

/// What names stand for at a place of the program.
#[derive(Clone, Copy)]
pub struct Env<'s, 'a> {
    pub functions: &'s Functions<'a>,
    pub scope: &'s Scope<'s, 'a>,
}

/// A variable and its type.
#[derive(Clone, Copy)]
pub struct Local<'a> {
    pub name: &'a Name,
    pub ty: TypeId,
}

/// The fault of a type that is not as it is wanted.
pub fn wrong(types: &Types, at: Pos, want: TypeId, got: Shape) -> TypeFault
    ensures { IsWanted at.0 (f.Is (type_of types.now.nodes.keys want)) (kind_of got) result }
{
    match types.spell(want) {
        Ok(Some(ty)) => TypeFault::Wanted {
            at,
            want: Shape::Is(ty),
            got,
        },
        Ok(None) | Err(_) => TypeFault::NoMemory,
    }
}

/// The fault of a subject that is of another shape than its patterns.
pub fn wrong_subject(types: &Types, at: Pos, want: Shape, got: TypeId) -> TypeFault
    ensures { IsWanted at.0 (kind_of want) (f.Is (type_of types.now.nodes.keys got)) result }
{
    match types.spell(got) {
        Ok(Some(ty)) => TypeFault::Wanted {
            at,
            want,
            got: Shape::Is(ty),
        },
        Ok(None) | Err(_) => TypeFault::NoMemory,
    }
}

/// Gives the type that was found, where it is the one that is wanted.
pub fn settle_as(
    types: &Types,
    at: Pos,
    found: TypeId,
    want: Option<TypeId>,
) -> Result<TypeId, TypeFault>
    ensures { Gives (settle types.now.nodes.keys want at.0 found) types.now.nodes.keys result }
{
    match want {
        None => Ok(found),
        Some(ty) => {
            if ty.0 == found.0 {
                Ok(found)
            } else {
                match types.spell(found)? {
                    Some(got) => Err(wrong(types, at, ty, Shape::Is(got))),
                    None => Err(TypeFault::NoMemory),
                }
            }
        }
    }
}

/// The place of an expression.
pub fn place_of(e: &Expr) -> Pos
    ensures { result.0 ≡ place (term_of e.now) }
{
    e.at
}

/// Walks an expression below one more variable.
#[cycle(walk)]
pub fn walk_below_one<'s, 'a>(
    types: &mut Types,
    env: Env<'s, 'a>,
    local: Local<'a>,
    e: &'a Expr,
    want: Option<TypeId>,
) -> Result<TypeId, TypeFault>
    requires few { AllNodes FewArguments (term_of e.now) }
    ensures { Gives (walk_below env.entry types.old.nodes.keys (local_of local.entry ∷ []) want
        (term_of e.now)) types.new.nodes.keys result }
{
    let scope = Scope::Bound {
        name: local.name,
        ty: local.ty,
        outer: env.scope,
    };
    let functions = env.functions;
    walk(
        types,
        Env {
            functions,
            scope: &scope,
        },
        e,
        want,
    )
}

/// Walks an expression below two more variables, of which the second is the newer.
#[cycle(walk)]
pub fn walk_below_two<'s, 'a>(
    types: &mut Types,
    env: Env<'s, 'a>,
    first: Local<'a>,
    second: Local<'a>,
    e: &'a Expr,
    want: Option<TypeId>,
) -> Result<TypeId, TypeFault>
    requires few { AllNodes FewArguments (term_of e.now) }
    ensures { Gives (walk_below env.entry types.old.nodes.keys
        (local_of second.entry ∷ local_of first.entry ∷ []) want (term_of e.now)) types.new.nodes.keys result }
{
    let scope = Scope::Bound {
        name: first.name,
        ty: first.ty,
        outer: env.scope,
    };
    let functions = env.functions;
    walk_below_one(
        types,
        Env {
            functions,
            scope: &scope,
        },
        second,
        e,
        want,
    )
}

/// Walks an expression below three more variables, of which the third is the newest.
#[cycle(walk)]
pub fn walk_below_three<'s, 'a>(
    types: &mut Types,
    env: Env<'s, 'a>,
    first: Local<'a>,
    second: Local<'a>,
    third: Local<'a>,
    e: &'a Expr,
    want: Option<TypeId>,
) -> Result<TypeId, TypeFault>
    requires few { AllNodes FewArguments (term_of e.now) }
    ensures { Gives (walk_below env.entry types.old.nodes.keys
        (local_of third.entry ∷ local_of second.entry ∷ local_of first.entry ∷ []) want (term_of e.now)) types.new.nodes.keys result }
{
    let scope = Scope::Bound {
        name: first.name,
        ty: first.ty,
        outer: env.scope,
    };
    let functions = env.functions;
    walk_below_two(
        types,
        Env {
            functions,
            scope: &scope,
        },
        second,
        third,
        e,
        want,
    )
}

/// Finds the type of an expression, or checks it against the one that is wanted.
#[cycle(walk)]
pub fn walk<'s, 'a>(
    types: &mut Types,
    env: Env<'s, 'a>,
    e: &'a Expr,
    want: Option<TypeId>,
) -> Result<TypeId, TypeFault>
    requires few { AllNodes FewArguments (term_of e.now) }
    ensures { Gives (walk_in env.entry types.old.nodes.keys want (term_of e.now)) types.new.nodes.keys result }
{
    let at = e.at;
    match &e.form {
        Form::Number(_) => settle_as(types, at, INT, want),
        Form::Truth(_) => settle_as(types, at, BOOL, want),
        Form::Nil => walk_nil(types, at, want),
        Form::Leaf => walk_leaf(types, at, want),
        Form::Nothing => walk_nothing(types, at, want),
        Form::Var(name) => walk_variable(types, env, at, name, want),
        Form::Arith(_, a, b) => walk_integers(types, env, at, a, b, INT, want),
        Form::Compare(_, a, b) => walk_integers(types, env, at, a, b, BOOL, want),
        Form::Not(a) => walk_not(types, env, at, a, want),
        Form::Let(x, a, b) => walk_let(types, env, x, a, b, want),
        Form::If(c, a, b) => walk_if(types, env, c, a, b, want),
        Form::Tick(_, a) => walk(types, env, a, want),
        Form::Typed(a, ty) => walk_typed(types, env, at, a, ty, want),
        Form::Pair(a, b) => walk_pair(types, env, at, a, b, want),
        Form::Cons(a, b) => walk_cons(types, env, at, a, b, want),
        Form::Node(a, b, c) => walk_node(types, env, at, a, b, c, want),
        Form::Just(a) => walk_just(types, env, at, a, want),
        Form::Call(name, args) => walk_call(types, env, at, name, args, want),
        Form::LetPair(x, y, a, b) => walk_let_pair(types, env, x, y, a, b, want),
        Form::MatchList(c, a, x, y, b) => walk_match_list(types, env, c, a, x, y, b, want),
        Form::MatchTree(c, a, x, y, z, b) => walk_match_tree(types, env, c, a, x, y, z, b, want),
        Form::MatchOption(c, a, x, b) => walk_match_option(types, env, c, a, x, b, want),
    }
}
