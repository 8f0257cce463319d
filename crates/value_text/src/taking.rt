// Goals are met token by token.
ghost use Rattle.std.specs.Prelude.{◌≡◌, ◌≢◌, ◌≤◌, ◌<◌, ◌+◌, ◌^◌, ℕ, List, [], ◌∷◌, true, MatchBool, OnOk, IfOk, IfErr, length, map};
ghost use Rattle.raml_syntax.specs.Value.{Value};
ghost use Rattle.raml_syntax.specs.Read.{ty_of};
ghost use Rattle.value_text.specs.Held.{Held};
ghost use Rattle.value_text.specs.Spelling.{sizes};
ghost use Rattle.value_text.specs.Lexing.{placed};
ghost use Rattle.value_text.specs.Tokens.{token_of};
ghost use Rattle.value_text.specs.Goals.{First, Tail, More, least, more_goals, more_values, FitAll, Sane};
ghost use Rattle.value_text.specs.State.{TakesToken, goal_of, goals_of, values_in, values_of, AllBelow, owed, IsVerdict, Taken, TurnedTo};
ghost use Rattle.value_text.specs.State.{Fails, Grows, AreCounted};
ghost use Rattle.value_text.specs.declared.goal.Verdict.TheVariants as a;

use crate::cells::{join, make_just, make_node, make_pair};
use crate::fault::{Kind, Stop};
use crate::goal::{Goal, Verdict, judge, push_goals, push_value};
use crate::heap::DataHeap;
use crate::items::take_items;
use crate::sign::Sign;
use crate::token::{Token, next};
use crate::word::Word;
use raml_syntax::Ty;
use std::alloc::AllocError;

// Takes the first token of a value. Where it is known that some value of the type is low enough, the
// type is not looked at again.
fn take_value<'a>(
    goals: &mut Vec<Goal<'a>>,
    words: &mut Vec<Word>,
    ty: &'a Ty,
    level: u32,
    token: Token,
    known: bool,
) -> Result<Verdict, AllocError>
    requires level { level ≤ 400 }
    requires known { known ≡ true → least (ty_of ty.now) + level ≤ 400 }
    ensures verdict { IfOk result (λ v. IsVerdict (ty_of ty.now) level (token_of token) v) }
    ensures goals { IfOk result (λ v. v ≡ a.Fits →
        goals_of goals.new.items ≡ more_goals (ty_of ty.now) level (token_of token) (goals_of goals.old.items)) }
    ensures values { IfOk result (λ v. v ≡ a.Fits → (hs : List Held) →
        values_in hs words.new.items [] ≡ more_values (token_of token) (values_in hs words.old.items [])) }
    ensures below { OnOk result ((n : ℕ) → AllBelow n words.old.items → AllBelow n words.new.items) }
{
    match judge(ty, level, token, known) {
        Verdict::Fits => {
            push_goals(goals, ty, level, token)?;
            push_value(words, token)?;
            Ok(Verdict::Fits)
        }
        Verdict::TooDeep => Ok(Verdict::TooDeep),
        Verdict::Shape => Ok(Verdict::Shape),
    }
}

// Takes the token behind `[`.
fn take_first<'a>(
    goals: &mut Vec<Goal<'a>>,
    words: &mut Vec<Word>,
    ty: &'a Ty,
    level: u32,
    token: Token,
) -> Result<Verdict, AllocError>
    requires level { 1 + level ≤ 400 }
    requires fits { FitAll (goals_of goals.old.items) }
    requires sane { Sane (token_of token) }
    ensures taken { IfOk result (λ v. (hs : List Held) →
        Taken v (First (ty_of ty.now) level) (token_of token)
        (goals_of goals.old.items) (values_in hs words.old.items [])
        (goals_of goals.new.items) (values_in hs words.new.items [])) }
    ensures below { OnOk result ((n : ℕ) → AllBelow n words.old.items → AllBelow n words.new.items) }
    ensures count { IfOk result (λ v. v ≡ a.Fits → (hs : List Held) →
        sizes (values_in hs words.new.items []) ≡ sizes (values_in hs words.old.items [])) }
{
    if token.is_sign(Sign::CloseList) {
        words.push(Word::Empty)?;
        return Ok(Verdict::Fits);
    }
    goals.push(Goal::Tail(ty, level, 1))?;
    take_value(goals, words, ty, level + 1, token, false)
}

// Takes the token behind an element.
fn take_tail<'a>(
    heap: &mut DataHeap,
    goals: &mut Vec<Goal<'a>>,
    words: &mut Vec<Word>,
    ty: &'a Ty,
    level: u32,
    count: usize,
    token: Token,
) -> Result<Verdict, AllocError>
    requires fits { FitAll (Tail (ty_of ty.now) level count ∷ goals_of goals.old.items) }
    requires words { AllBelow (length heap.old.cells) words.old.items }
    requires room { length heap.old.cells + count + 1 < 2 ^ 32 }
    ensures taken { IfOk result (λ v.
        Taken v (Tail (ty_of ty.now) level count) (token_of token)
        (goals_of goals.old.items) (values_of heap.old.cells words.old.items)
        (goals_of goals.new.items) (values_of heap.new.cells words.new.items)) }
    ensures below { OnOk result (AllBelow (length heap.new.cells) words.new.items) }
    ensures count { IfOk result (λ v. v ≡ a.Fits → AreCounted heap.old.cells words.old.items heap.new.cells words.new.items) }
    ensures grows { Grows heap.old.cells heap.new.cells }
{
    if token.is_sign(Sign::Comma) {
        goals.extend_from_slice(&[Goal::Tail(ty, level, count + 1), Goal::Value(ty, level + 1)])?;
        return Ok(Verdict::Fits);
    }
    if token.is_sign(Sign::CloseList) {
        join(heap, words, count)?;
        return Ok(Verdict::Fits);
    }
    Ok(Verdict::Shape)
}

// Takes the token behind an argument.
fn take_more<'a>(
    goals: &mut Vec<Goal<'a>>,
    types: &'a [Ty],
    token: Token,
) -> Result<Verdict, AllocError>
    requires fits { FitAll (More (map ty_of types.now) ∷ goals_of goals.old.items) }
    ensures taken { IfOk result (λ v. (vs : List Value) →
        Taken v (More (map ty_of types.now)) (token_of token) (goals_of goals.old.items) vs (goals_of goals.new.items) vs) }
{
    match types {
        [] => Ok(if token.is_sign(Sign::Close) {
            Verdict::Fits
        } else {
            Verdict::Shape
        }),
        [first, rest @ ..] => {
            if token.is_sign(Sign::Comma) {
                goals.extend_from_slice(&[Goal::More(rest), Goal::Value(first, 0)])?;
                return Ok(Verdict::Fits);
            }
            Ok(Verdict::Shape)
        }
    }
}

// Takes a token for a goal.
fn take<'a>(
    heap: &mut DataHeap,
    goals: &mut Vec<Goal<'a>>,
    words: &mut Vec<Word>,
    goal: Goal<'a>,
    token: Token,
) -> Result<Verdict, AllocError>
    requires fits { FitAll (goal_of goal ∷ goals_of goals.old.items) }
    requires token { TakesToken (goal_of goal) }
    requires sane { Sane (token_of token) }
    requires words { AllBelow (length heap.old.cells) words.old.items }
    requires room { length heap.old.cells + owed (goal_of goal) + 1 < 2 ^ 32 }
    ensures taken { IfOk result (λ v.
        Taken v (goal_of goal.entry) (token_of token)
        (goals_of goals.old.items) (values_of heap.old.cells words.old.items)
        (goals_of goals.new.items) (values_of heap.new.cells words.new.items)) }
    ensures below { OnOk result (AllBelow (length heap.new.cells) words.new.items) }
    ensures count { IfOk result (λ v. v ≡ a.Fits → AreCounted heap.old.cells words.old.items heap.new.cells words.new.items) }
    ensures grows { Grows heap.old.cells heap.new.cells }
{
    match goal {
        Goal::Value(ty, level) => take_value(goals, words, ty, level, token, true),
        Goal::First(ty, level) => take_first(goals, words, ty, level, token),
        Goal::Tail(ty, level, count) => take_tail(heap, goals, words, ty, level, count, token),
        Goal::Sign(sign) => Ok(if token.is_sign(sign) {
            Verdict::Fits
        } else {
            Verdict::Shape
        }),
        Goal::More(types) => take_more(goals, types, token),
        Goal::Pair => unreachable!(),
        Goal::Node => unreachable!(),
        Goal::Just => unreachable!(),
    }
}

// Takes the first token of the text for a goal, and answers the text that is left.
fn turn_token<'a, 'b>(
    heap: &mut DataHeap,
    goals: &mut Vec<Goal<'a>>,
    words: &mut Vec<Word>,
    goal: Goal<'a>,
    text: &'b [u8],
) -> Result<&'b [u8], Stop>
    requires fits { FitAll (goal_of goal ∷ goals_of goals.old.items) }
    requires token { TakesToken (goal_of goal) }
    requires words { AllBelow (length heap.old.cells) words.old.items }
    requires room { length heap.old.cells + owed (goal_of goal) + 1 < 2 ^ 32 }
    ensures turned { IfOk result (λ rest.
        TurnedTo (goal_of goal.entry)
        (goals_of goals.old.items) (values_of heap.old.cells words.old.items) text.now
        (goals_of goals.new.items) (values_of heap.new.cells words.new.items) rest.now) }
    ensures fails { IfErr result (λ stop.
        Fails stop (goal_of goal.entry ∷ goals_of goals.old.items) (values_of heap.old.cells words.old.items) (placed text.now)) }
    ensures below { OnOk result (AllBelow (length heap.new.cells) words.new.items) }
    ensures count { OnOk result (AreCounted heap.old.cells words.old.items heap.new.cells words.new.items) }
    ensures grows { Grows heap.old.cells heap.new.cells }
{
    match next(text) {
        None => Err(Stop::Fault(Kind::Shape, 0)),
        Some((token, left, rest)) => match take(heap, goals, words, goal, token)? {
            Verdict::Fits => Ok(rest),
            Verdict::TooDeep => Err(Stop::Fault(Kind::TooDeep, left)),
            Verdict::Shape => Err(Stop::Fault(Kind::Shape, left)),
        },
    }
}

// Takes the rest of a list as far as it goes, and answers the text that is left.
fn turn_tail<'a, 'b>(
    heap: &mut DataHeap,
    goals: &mut Vec<Goal<'a>>,
    words: &mut Vec<Word>,
    ty: &'a Ty,
    level: u32,
    count: usize,
    text: &'b [u8],
) -> Result<&'b [u8], Stop>
    requires fits { FitAll (Tail (ty_of ty.now) level count ∷ goals_of goals.old.items) }
    requires words { AllBelow (length heap.old.cells) words.old.items }
    requires room { length heap.old.cells + count + 1 < 2 ^ 32 }
    ensures turned { IfOk result (λ rest.
        TurnedTo (Tail (ty_of ty.now) level count)
        (goals_of goals.old.items) (values_of heap.old.cells words.old.items) text.now
        (goals_of goals.new.items) (values_of heap.new.cells words.new.items) rest.now) }
    ensures fails { IfErr result (λ stop.
        Fails stop (Tail (ty_of ty.now) level count ∷ goals_of goals.old.items)
        (values_of heap.old.cells words.old.items) (placed text.now)) }
    ensures below { OnOk result (AllBelow (length heap.new.cells) words.new.items) }
    ensures count { OnOk result (AreCounted heap.old.cells words.old.items heap.new.cells words.new.items) }
    ensures grows { Grows heap.old.cells heap.new.cells }
{
    let (more, rest) = take_items(words, ty, text)?;
    if more == 0 {
        return turn_token(heap, goals, words, Goal::Tail(ty, level, count), text);
    }
    goals.push(Goal::Tail(ty, level, count + more))?;
    Ok(rest)
}

/// Meets a goal as far as it goes, and answers the text that is left.
pub fn turn<'a, 'b>(
    heap: &mut DataHeap,
    goals: &mut Vec<Goal<'a>>,
    words: &mut Vec<Word>,
    goal: Goal<'a>,
    text: &'b [u8],
) -> Result<&'b [u8], Stop>
    requires fits { FitAll (goal_of goal ∷ goals_of goals.old.items) }
    requires words { AllBelow (length heap.old.cells) words.old.items }
    requires room { length heap.old.cells + owed (goal_of goal) + 1 < 2 ^ 32 }
    ensures turned { IfOk result (λ rest.
        TurnedTo (goal_of goal.entry)
        (goals_of goals.old.items) (values_of heap.old.cells words.old.items) text.now
        (goals_of goals.new.items) (values_of heap.new.cells words.new.items) rest.now) }
    ensures fails { IfErr result (λ stop.
        Fails stop (goal_of goal.entry ∷ goals_of goals.old.items) (values_of heap.old.cells words.old.items) (placed text.now)) }
    ensures below { OnOk result (AllBelow (length heap.new.cells) words.new.items) }
    ensures count { OnOk result (AreCounted heap.old.cells words.old.items heap.new.cells words.new.items) }
    ensures grows { Grows heap.old.cells heap.new.cells }
{
    match goal {
        Goal::Pair => {
            make_pair(heap, words)?;
            Ok(text)
        }
        Goal::Node => {
            make_node(heap, words)?;
            Ok(text)
        }
        Goal::Just => {
            make_just(heap, words)?;
            Ok(text)
        }
        Goal::Value(..) => turn_token(heap, goals, words, goal, text),
        Goal::First(..) => turn_token(heap, goals, words, goal, text),
        Goal::Tail(ty, level, count) => turn_tail(heap, goals, words, ty, level, count, text),
        Goal::Sign(_) => turn_token(heap, goals, words, goal, text),
        Goal::More(_) => turn_token(heap, goals, words, goal, text),
    }
}
