// Operands and parts of expressions.
ghost use Rattle.std.specs.Prelude.{◌≡◌, map, length, slice_get, option_map};
ghost use Rattle.std.specs.Option.{is_some};
ghost use Rattle.raml_syntax.specs.Read.{term_of};
ghost use Rattle.normal_spec.specs.One as one;
ghost use Rattle.explain_origins.specs.Origins.{origins};
ghost use Rattle.explain_origins.specs.Cursors.{bare, operands, own};
ghost use Rattle.explain_origins.specs.Paths.{in_turn};

use crate::turn::Turn;
use raml_syntax::{Expr, Form};

/// Whether the expression is a variable, types behind it aside.
pub(crate) fn is_plain(expr: &Expr) -> bool
    ensures { result ≡ is_some (one.plain (term_of expr.now)) }
{
    match &expr.form {
        Form::Var(_) => true,
        Form::Typed(inner, _) => is_plain(inner),
        _ => false,
    }
}

/// The expression without the types behind it.
pub(crate) fn bare(expr: &Expr) -> &Expr
    ensures { term_of result.now ≡ bare (term_of expr.now) }
{
    match &expr.form {
        Form::Typed(inner, _) => bare(inner),
        _ => expr,
    }
}

/// How many operands it has.
#[tactic(auto, using(crate::proofs::Forms::call_count))]
pub(crate) fn operand_count(expr: &Expr) -> usize
    ensures { result ≡ length (operands (term_of expr.now)) }
{
    match &expr.form {
        Form::Call(_, args) => args.len(),
        Form::Node(..) => 3,
        Form::Arith(..) | Form::Compare(..) | Form::Pair(..) | Form::Cons(..) => 2,
        Form::Not(_)
        | Form::Just(_)
        | Form::LetPair(..)
        | Form::If(..)
        | Form::MatchList(..)
        | Form::MatchTree(..)
        | Form::MatchOption(..) => 1,
        Form::Number(_)
        | Form::Truth(_)
        | Form::Nil
        | Form::Leaf
        | Form::Nothing
        | Form::Var(_)
        | Form::Let(..)
        | Form::Tick(..)
        | Form::Typed(..) => 0,
    }
}

/// Its operand at a place, from left to right.
#[tactic(auto, using(crate::proofs::Forms::call_at))]
pub(crate) fn operand_at(expr: &Expr, place: usize) -> Option<&Expr>
    ensures { option_map (λ e. term_of e.now) result ≡ slice_get (operands (term_of expr.now)) place }
{
    match &expr.form {
        Form::Call(_, args) => argument_at(args, place),
        Form::Node(first, second, third) => match place {
            0 => Some(first),
            1 => Some(second),
            2 => Some(third),
            _ => None,
        },
        Form::Arith(_, first, second)
        | Form::Compare(_, first, second)
        | Form::Pair(first, second)
        | Form::Cons(first, second) => match place {
            0 => Some(first),
            1 => Some(second),
            _ => None,
        },
        Form::Not(operand)
        | Form::Just(operand)
        | Form::LetPair(_, _, operand, _)
        | Form::If(operand, _, _)
        | Form::MatchList(operand, _, _, _, _)
        | Form::MatchTree(operand, _, _, _, _, _)
        | Form::MatchOption(operand, _, _, _) => match place {
            0 => Some(operand),
            _ => None,
        },
        Form::Number(_)
        | Form::Truth(_)
        | Form::Nil
        | Form::Leaf
        | Form::Nothing
        | Form::Var(_)
        | Form::Let(..)
        | Form::Tick(..)
        | Form::Typed(..) => None,
    }
}

fn argument_at(args: &[Expr], place: usize) -> Option<&Expr>
    ensures { option_map (λ e. term_of e.now) result ≡ slice_get (map term_of args.now) place }
{
    args.get(place)
}

/// The part to which a turn leads from the form that stands for the expression itself.
pub(crate) fn part(expr: &Expr, turn: Turn) -> Option<&Expr>
    ensures { option_map (λ e. origins (term_of e.now)) result ≡ in_turn turn (own (term_of expr.now)) }
{
    match turn {
        Turn::Only => only_part(expr),
        Turn::First => first_part(expr),
        Turn::Second => second_part(expr),
    }
}

fn only_part(expr: &Expr) -> Option<&Expr>
    ensures { option_map (λ e. origins (term_of e.now)) result ≡ in_turn Turn.Only (own (term_of expr.now)) }
{
    match &expr.form {
        Form::LetPair(_, _, _, rest) | Form::Tick(_, rest) => Some(rest),
        _ => None,
    }
}

fn first_part(expr: &Expr) -> Option<&Expr>
    ensures { option_map (λ e. origins (term_of e.now)) result ≡ in_turn Turn.First (own (term_of expr.now)) }
{
    match &expr.form {
        Form::Let(_, bound, _) => Some(bound),
        Form::If(_, first, _)
        | Form::MatchList(_, first, _, _, _)
        | Form::MatchTree(_, first, _, _, _, _)
        | Form::MatchOption(_, first, _, _) => Some(first),
        _ => None,
    }
}

fn second_part(expr: &Expr) -> Option<&Expr>
    ensures { option_map (λ e. origins (term_of e.now)) result ≡ in_turn Turn.Second (own (term_of expr.now)) }
{
    match &expr.form {
        Form::Let(_, _, rest) => Some(rest),
        Form::If(_, _, second)
        | Form::MatchList(_, _, _, _, second)
        | Form::MatchTree(_, _, _, _, _, second)
        | Form::MatchOption(_, _, _, second) => Some(second),
        _ => None,
    }
}
