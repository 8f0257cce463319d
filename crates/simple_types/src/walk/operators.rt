// The walk over operators, annotations and `if`.
ghost use Rattle.std.specs.Prelude.{Some};
ghost use Rattle.raml_syntax.specs.Read.{ty_of, term_of};
ghost use Rattle.raml_syntax.specs.Tree as t;
ghost use Rattle.raml_syntax.specs.Node.{AllNodes, FewArguments};
ghost use Rattle.simple_types.specs.Table.{integer};
ghost use Rattle.simple_types.specs.Numbered.{settle};
ghost use Rattle.simple_types.specs.Read.{Gives, walk_in};
ghost use Rattle.simple_types.specs.Walk.{and_then};

use crate::fault::TypeFault;
use crate::types::{BOOL, INT, TypeId, Types};
use crate::walk::{Env, settle_as, walk};
use raml_syntax::{Expr, Pos, Ty};

/// Walks two integers, of which a value of another type is made.
#[cycle(walk)]
pub fn walk_integers<'s, 'a>(
    types: &mut Types,
    env: Env<'s, 'a>,
    at: Pos,
    left: &'a Expr,
    right: &'a Expr,
    made: TypeId,
    want: Option<TypeId>,
) -> Result<TypeId, TypeFault>
    requires few { AllNodes FewArguments (term_of left.now) × AllNodes FewArguments (term_of right.now) }
    ensures { Gives (and_then (walk_in env.entry types.old.nodes.keys (Some integer) (term_of left.now)) (λ A.
        and_then (walk_in env.entry A.0 (Some integer) (term_of right.now)) (λ B.
        settle B.0 want at.0 made))) types.new.nodes.keys result }
{
    walk(types, env, left, Some(INT))?;
    walk(types, env, right, Some(INT))?;
    settle_as(types, at, made, want)
}

/// Walks `not e`.
#[cycle(walk)]
pub fn walk_not<'s, 'a>(
    types: &mut Types,
    env: Env<'s, 'a>,
    at: Pos,
    e: &'a Expr,
    want: Option<TypeId>,
) -> Result<TypeId, TypeFault>
    requires few { AllNodes FewArguments (term_of e.now) }
    ensures { Gives (walk_in env.entry types.old.nodes.keys want (t.Not at.0 (term_of e.now))) types.new.nodes.keys result }
{
    walk(types, env, e, Some(BOOL))?;
    settle_as(types, at, BOOL, want)
}

/// Walks `(e : T)`.
#[cycle(walk)]
pub fn walk_typed<'s, 'a>(
    types: &mut Types,
    env: Env<'s, 'a>,
    at: Pos,
    e: &'a Expr,
    ty: &'a Ty,
    want: Option<TypeId>,
) -> Result<TypeId, TypeFault>
    requires few { AllNodes FewArguments (term_of e.now) }
    ensures { Gives (walk_in env.entry types.old.nodes.keys want
        (t.Typed at.0 (term_of e.now) (ty_of ty.now))) types.new.nodes.keys result }
{
    let known = types.intern(ty)?;
    walk(types, env, e, Some(known))?;
    settle_as(types, at, known, want)
}

/// Walks `if condition then yes else no`, whose own place tells nothing.
#[cycle(walk)]
pub fn walk_if<'s, 'a>(
    types: &mut Types,
    env: Env<'s, 'a>,
    condition: &'a Expr,
    yes: &'a Expr,
    no: &'a Expr,
    want: Option<TypeId>,
) -> Result<TypeId, TypeFault>
    requires few { AllNodes FewArguments (term_of condition.now)
        × AllNodes FewArguments (term_of yes.now) × AllNodes FewArguments (term_of no.now) }
    ensures { Gives (walk_in env.entry types.old.nodes.keys want
        (t.If 0 (term_of condition.now) (term_of yes.now) (term_of no.now))) types.new.nodes.keys result }
{
    walk(types, env, condition, Some(BOOL))?;
    let found = walk(types, env, yes, want)?;
    walk(types, env, no, Some(found))
}
