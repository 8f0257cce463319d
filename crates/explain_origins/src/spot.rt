// Spots of a walk.
ghost use Rattle.std.specs.Prelude.{◌≡◌, ◌∷◌, ℕ, List, Some, None, option_map, slice_get, length, nat_eq};
ghost use Rattle.std.specs.Option.{MatchOption};
ghost use Rattle.raml_syntax.specs.Read.{term_of};
ghost use Rattle.normal_spec.specs.Read.{norm_of};
ghost use Rattle.rules_walk.specs.Read.{plan_of, plans_of};
ghost use Rattle.explain_origins.specs.Paths.{only, fork, plan_at, degree_at, let_turn, below, form_at, origins_at, origin_at};
ghost use Rattle.explain_origins.specs.ReadCursors.{origins_of};
ghost use Rattle.explain_origins.specs.ReadSpots.{turn_of, part_in, from_spot};
ghost use Rattle.explain_origins.specs.declared.turn.Turn.{Turn as TheTurn};

use crate::cursor::Cursor;
use crate::turn::Turn;
use normal_spec::{NormExpr, NormForm};
use raml_syntax::Expr;
use rules_walk::{Parts, Plan};
use std::rc::Rc;

/// A form of a walk, with its plan and its origins.
#[derive(Clone, Copy)]
pub(crate) struct Spot<'w, 'p> {
    pub(crate) plan: &'w Plan,
    pub(crate) form: &'w NormExpr,
    pub(crate) cursor: Cursor<'p>,
}

impl<'w, 'p> Spot<'w, 'p> {
    /// The spot to which a number of a path leads.
    fn next(self, number: usize) -> Option<Spot<'w, 'p>>
        ensures { (path : List ℕ) → MatchOption result
            (from_spot self.entry (number ∷ path) ≡ None)
            (λ spot. from_spot self.entry (number ∷ path) ≡ from_spot spot path) }
    {
        let (turn, plan) = below(self.plan, number)?;
        let form = form_at(self.form, turn)?;
        let cursor = origins_at(self.form, self.cursor, turn)?;
        Some(Spot { plan, form, cursor })
    }

    /// The expression for which the form stands to which a path leads.
    pub(crate) fn origin(self, path: &[u32]) -> Option<&'p Expr>
        ensures { option_map (λ e. term_of e.now) result ≡ from_spot self.entry path.now }
    {
        let mut spot = self;
        for number in path {
            spot = spot.next(*number as usize)?;
        }
        Some(spot.cursor.source())
    }
}

/// Where a number leads, and the plan there.
#[tactic(auto, using(crate::proofs::Forms::lets_below))]
fn below(plan: &Plan, number: usize) -> Option<(Turn, &Plan)>
    ensures { option_map turn_of result ≡ below (plan_of plan.now) number }
{
    match plan {
        Plan::Ends(..) | Plan::Calls(..) => None,
        Plan::Pays(_, _, rest) | Plan::Moves(_, _, rest) | Plan::Shares(_, _, _, rest) => {
            only(rest, number)
        }
        Plan::Forks(_, _, first, _, second) => fork(first, second, number),
        Plan::Lets(_, parts, bound, _, rest) => let_turn(parts, bound, rest, number),
    }
}

fn only(plan: &Plan, number: usize) -> Option<(Turn, &Plan)>
    ensures { option_map turn_of result ≡ only (plan_of plan.now) number }
{
    match number {
        0 => Some((Turn::Only, plan)),
        _ => None,
    }
}

fn fork<'w>(first: &'w Plan, second: &'w Plan, number: usize) -> Option<(Turn, &'w Plan)>
    ensures { option_map turn_of result ≡ fork (plan_of first.now) (plan_of second.now) number }
{
    match number {
        0 => Some((Turn::First, first)),
        1 => Some((Turn::Second, second)),
        _ => None,
    }
}

/// At a `let`, the number of a tuple leads to the bound form, and the count of tuples to the rest.
fn let_turn<'w>(
    parts: &Parts,
    bound: &'w [Rc<Plan>],
    rest: &'w Plan,
    number: usize,
) -> Option<(Turn, &'w Plan)>
    ensures { option_map turn_of result
        ≡ let_turn (degree_at parts.now number) (nat_eq number (length parts.now)) (plans_of bound.now) (plan_of rest.now) }
{
    match degree_at(parts, number) {
        Some(degree) => match bound_at(bound, degree) {
            Some(plan) => Some((Turn::First, plan)),
            None => None,
        },
        None if is_count(parts, number) => Some((Turn::Second, rest)),
        None => None,
    }
}

/// The degree of the tuple of this number.
#[tactic(auto, using(crate::proofs::Forms::degree_is))]
fn degree_at(parts: &Parts, number: usize) -> Option<usize>
    ensures { result ≡ degree_at parts.now number }
{
    match parts.list().get(number) {
        Some(part) => Some(part.degree),
        None => None,
    }
}

#[tactic(auto, using(crate::proofs::Forms::count_is))]
fn is_count(parts: &Parts, number: usize) -> bool
    ensures { result ≡ nat_eq number (length parts.now) }
{
    number == parts.list().len()
}

/// The plan at a place.
fn bound_at(plans: &[Rc<Plan>], place: usize) -> Option<&Plan>
    ensures { option_map (λ e. plan_of e.now) result ≡ plan_at (plans_of plans.now) place }
{
    match plans.get(place) {
        Some(plan) => Some(plan),
        None => None,
    }
}

/// The form to which a turn leads.
fn form_at(form: &NormExpr, turn: Turn) -> Option<&NormExpr>
    ensures { option_map (λ e. norm_of e.now) result ≡ form_at (norm_of form.now) turn }
{
    match parts(form) {
        Parted::Alone => None,
        Parted::One(rest) => match turn {
            Turn::Only => Some(rest),
            Turn::First | Turn::Second => None,
        },
        Parted::Two(first, second) => match turn {
            Turn::Only => None,
            Turn::First => Some(first),
            Turn::Second => Some(second),
        },
    }
}

/// The forms below a form.
#[derive(Clone, Copy)]
enum Parted<'w> {
    Alone,
    One(&'w NormExpr),
    Two(&'w NormExpr, &'w NormExpr),
}

#[tactic(auto, using(crate::proofs::Forms::const_part, crate::proofs::Forms::op_part))]
fn parts(form: &NormExpr) -> Parted<'_>
    ensures { (turn : TheTurn) → part_in result turn ≡ form_at (norm_of form.now) turn }
{
    match &form.form {
        NormForm::Const(_) => Parted::Alone,
        NormForm::Op(_) => Parted::Alone,
        NormForm::Var(_)
        | NormForm::Nil
        | NormForm::Leaf
        | NormForm::Nothing
        | NormForm::Pair(..)
        | NormForm::Cons(..)
        | NormForm::Node(..)
        | NormForm::Just(_)
        | NormForm::Call(..) => Parted::Alone,
        NormForm::Split(_, _, _, rest)
        | NormForm::Tick(_, rest)
        | NormForm::Share(_, _, _, rest)
        | NormForm::Drop(_, rest) => Parted::One(rest),
        NormForm::Let(_, _, first, second)
        | NormForm::If(_, first, second)
        | NormForm::CaseList(_, first, _, _, second)
        | NormForm::CaseTree(_, first, _, _, _, second)
        | NormForm::CaseOption(_, first, _, second) => Parted::Two(first, second),
    }
}

/// The origins to which a turn leads: those of a form that is shared or dropped before are those of the form behind.
#[tactic(auto, using(crate::proofs::Forms::const_origins, crate::proofs::Forms::op_origins))]
fn origins_at<'p>(form: &NormExpr, cursor: Cursor<'p>, turn: Turn) -> Option<Cursor<'p>>
    ensures { option_map origins_of result ≡ origins_at (norm_of form.now) turn (origins_of cursor.entry) }
{
    match &form.form {
        NormForm::Share(..) | NormForm::Drop(..) => Some(cursor),
        NormForm::Const(_) => cursor.turned(turn),
        NormForm::Op(_) => cursor.turned(turn),
        NormForm::Var(_)
        | NormForm::Nil
        | NormForm::Leaf
        | NormForm::Nothing
        | NormForm::Pair(..)
        | NormForm::Cons(..)
        | NormForm::Node(..)
        | NormForm::Just(_)
        | NormForm::Call(..)
        | NormForm::Let(..)
        | NormForm::Split(..)
        | NormForm::If(..)
        | NormForm::CaseList(..)
        | NormForm::CaseTree(..)
        | NormForm::CaseOption(..)
        | NormForm::Tick(..) => cursor.turned(turn),
    }
}
