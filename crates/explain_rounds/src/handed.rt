// What calls of a group hand on, and which of them get the same.
ghost use Rattle.std.specs.Prelude.{◌≡◌, ◌++◌, OnOk};
ghost use Rattle.raml_syntax.specs.Read.{term_of, terms_of, ty_of};
ghost use Rattle.explain_rounds.specs.Twice as w;
ghost use Rattle.explain_rounds.specs.Read.{variables_in, types_in};
ghost use Rattle.explain_rounds.specs.Found.{place_in, pairs_of};

use crate::class::is_sized;
use crate::scope::Scope;
use raml_syntax::{Expr, Form, Param, Pos};
use std::alloc::AllocError;

/// A part that a call hands on: the place of the call, and that of the name that the part was bound by.
#[derive(Clone, Copy)]
pub struct Handed {
    pub at: u32,
    pub part: u32,
}

/// Two calls of functions of the group that can both happen in one evaluation of a body, with the place
/// of the name of a part that both get.
#[derive(Clone, Copy, PartialEq, Eq, Debug)]
pub struct SamePart {
    pub first: Pos,
    pub second: Pos,
    pub part: Pos,
}

/// Where the name stands by which a part was bound that is handed on as it is.
fn part_of(scope: &Scope, e: &Expr) -> Option<Pos>
    ensures { place_in result ≡ w.part_of (variables_in scope.now) (term_of e.now) }
{
    match &e.form {
        Form::Var(name) => scope.part_at(name.text()),
        Form::Typed(inner, _) => part_of(scope, inner),
        Form::Number(_)
        | Form::Truth(_)
        | Form::Nil
        | Form::Leaf
        | Form::Nothing
        | Form::Arith(..)
        | Form::Compare(..)
        | Form::Not(_)
        | Form::Pair(..)
        | Form::Cons(..)
        | Form::Node(..)
        | Form::Just(_)
        | Form::Call(..)
        | Form::Let(..)
        | Form::LetPair(..)
        | Form::If(..)
        | Form::MatchList(..)
        | Form::MatchTree(..)
        | Form::MatchOption(..)
        | Form::Tick(..) => None,
    }
}

/// Adds a part of a sized type that a call hands on.
fn hand_one(
    handed: &mut Vec<Handed>,
    scope: &Scope,
    at: Pos,
    param: &Param,
    arg: &Expr,
) -> Result<(), AllocError>
    ensures { OnOk result (handed.new.items
        ≡ handed.old.items ++ w.handed_one (variables_in scope.now) at.0 (ty_of param.now.ty) (term_of arg.now)) }
{
    if is_sized(&param.ty) {
        match part_of(scope, arg) {
            Some(part) => {
                handed.push(Handed {
                    at: at.0,
                    part: part.0,
                })?;
                Ok(())
            }
            None => Ok(()),
        }
    } else {
        Ok(())
    }
}

/// Adds the parts of sized types that a call hands on.
pub fn hand_all(
    handed: &mut Vec<Handed>,
    scope: &Scope,
    at: Pos,
    params: &[Param],
    args: &[Expr],
) -> Result<(), AllocError>
    ensures { OnOk result (handed.new.items
        ≡ handed.old.items ++ w.handed (variables_in scope.now) at.0 (types_in params.now) (terms_of args.now)) }
{
    match params {
        [] => Ok(()),
        [param, params @ ..] => match args {
            [] => Ok(()),
            [arg, args @ ..] => {
                hand_one(handed, scope, at, param, arg)?;
                hand_all(handed, scope, at, params, args)
            }
        },
    }
}

/// Adds the later calls that get the same part as one.
fn add_again(pairs: &mut Vec<SamePart>, one: Handed, later: &[Handed]) -> Result<(), AllocError>
    ensures { OnOk result (pairs_of pairs.new.items ≡ pairs_of pairs.old.items ++ w.again one later.now) }
{
    for other in later {
        if one.part == other.part {
            pairs.push(SamePart {
                first: Pos(one.at),
                second: Pos(other.at),
                part: Pos(one.part),
            })?;
        }
    }
    Ok(())
}

/// Adds for each of the calls the later ones that get the same part.
pub fn add_crossed(
    pairs: &mut Vec<SamePart>,
    earlier: &[Handed],
    later: &[Handed],
) -> Result<(), AllocError>
    ensures { OnOk result (pairs_of pairs.new.items ≡ pairs_of pairs.old.items ++ w.crossed earlier.now later.now) }
{
    for one in earlier {
        add_again(pairs, *one, later)?;
    }
    Ok(())
}
