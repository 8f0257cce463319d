// What is still to be read of data.
ghost use Rattle.std.specs.Prelude.{◌≡◌, ◌≤◌, ◌<◌, ◌+◌, ℕ, List, [], ◌++◌, true, Some, MatchBool, OnOk, nat_le};
ghost use Rattle.raml_syntax.specs.Read.{ty_of};
ghost use Rattle.value_text.specs.Held.{Held};
ghost use Rattle.value_text.specs.Goals.{least, begins, more_goals, more_values};
ghost use Rattle.value_text.specs.Tokens.{token_of};
ghost use Rattle.value_text.specs.State.{is_found, pair_goals, node_goals, content_goals, goals_of, values_in, AllBelow, IsVerdict};

use crate::sign::Sign;
use crate::token::Token;
use crate::word::Word;
use raml_syntax::Ty;
use std::alloc::AllocError;

/// The greatest height of a value.
pub const MOST_HEIGHT: u32 = 400;

/// What is still to be read. A number behind a type tells in how many forms the value stands.
#[derive(Clone, Copy)]
pub enum Goal<'a> {
    Value(&'a Ty, u32),
    /// What stands behind `[`, up to `]`: elements of the type.
    First(&'a Ty, u32),
    /// The rest of a list, of which so many elements are read.
    Tail(&'a Ty, u32, usize),
    Sign(Sign),
    /// The other arguments.
    More(&'a [Ty]),
    /// Two values are read.
    Pair,
    /// Three values are read.
    Node,
    /// The content of an option is read.
    Just,
}

/// Whether a token can stand.
#[derive(Clone, Copy, PartialEq, Eq, Debug)]
pub enum Verdict {
    Fits,
    TooDeep,
    Shape,
}

/// Whether some value of the type has this height or less.
pub fn fits(ty: &Ty, height: u32) -> bool
    ensures { result ≡ nat_le (least (ty_of ty.now)) height }
{
    match ty {
        Ty::Pair(first, second) => height > 0
            && fits(first, height - 1)
            && fits(second, height - 1),
        Ty::Int | Ty::Bool | Ty::List(_) | Ty::Tree(_) | Ty::Opt(_) => height > 0,
    }
}

/// Whether some value of the type begins with the token.
pub fn starts(ty: &Ty, token: Token) -> bool
    ensures { result ≡ is_found (begins (ty_of ty.now) (token_of token)) }
{
    match ty {
        Ty::Int => matches!(token, Token::Number(_)),
        Ty::Bool => matches!(token, Token::Truth(_)),
        Ty::Pair(..) => matches!(token, Token::Sign(Sign::Open)),
        Ty::List(_) => matches!(token, Token::Sign(Sign::OpenList)),
        Ty::Tree(_) => matches!(token, Token::Sign(Sign::Leaf | Sign::Node)),
        Ty::Opt(_) => matches!(token, Token::Sign(Sign::Nothing | Sign::Just)),
    }
}

fn push_pair<'a>(
    goals: &mut Vec<Goal<'a>>,
    first: &'a Ty,
    second: &'a Ty,
    level: u32,
) -> Result<(), AllocError>
    ensures { OnOk result (goals.new.items ≡ goals.old.items ++ pair_goals first.entry second.entry level) }
{
    goals.extend_from_slice(&[
        Goal::Pair,
        Goal::Sign(Sign::Close),
        Goal::Value(second, level),
        Goal::Sign(Sign::Comma),
        Goal::Value(first, level),
    ])
}

fn push_node<'a>(
    goals: &mut Vec<Goal<'a>>,
    element: &'a Ty,
    tree: &'a Ty,
    level: u32,
) -> Result<(), AllocError>
    ensures { OnOk result (goals.new.items ≡ goals.old.items ++ node_goals element.entry tree.entry level) }
{
    goals.extend_from_slice(&[
        Goal::Node,
        Goal::Sign(Sign::Close),
        Goal::Value(tree, level),
        Goal::Sign(Sign::Comma),
        Goal::Value(tree, level),
        Goal::Sign(Sign::Comma),
        Goal::Value(element, level),
        Goal::Sign(Sign::Open),
    ])
}

fn push_content<'a>(
    goals: &mut Vec<Goal<'a>>,
    content: &'a Ty,
    level: u32,
) -> Result<(), AllocError>
    ensures { OnOk result (goals.new.items ≡ goals.old.items ++ content_goals content.entry level) }
{
    goals.extend_from_slice(&[
        Goal::Just,
        Goal::Sign(Sign::Close),
        Goal::Value(content, level),
        Goal::Sign(Sign::Open),
    ])
}

/// Puts down what is to be read behind the first token of a value.
pub fn push_goals<'a>(
    goals: &mut Vec<Goal<'a>>,
    ty: &'a Ty,
    level: u32,
    token: Token,
) -> Result<(), AllocError>
    requires { level < 1000 }
    ensures { OnOk result (goals_of goals.new.items ≡ more_goals (ty_of ty.now) level (token_of token) (goals_of goals.old.items)) }
{
    match ty {
        Ty::Pair(first, second) => match token {
            Token::Sign(Sign::Open) => push_pair(goals, first, second, level + 1),
            _ => Ok(()),
        },
        Ty::List(element) => match token {
            Token::Sign(Sign::OpenList) => Ok(goals.push(Goal::First(element, level))?),
            _ => Ok(()),
        },
        Ty::Tree(element) => match token {
            Token::Sign(Sign::Node) => push_node(goals, element, ty, level + 1),
            _ => Ok(()),
        },
        Ty::Opt(content) => match token {
            Token::Sign(Sign::Just) => push_content(goals, content, level + 1),
            _ => Ok(()),
        },
        Ty::Int | Ty::Bool => Ok(()),
    }
}

/// Puts down the value of a token that is one.
#[tactic(auto, using(crate::proofs::States::values_snoc, crate::proofs::States::below_snoc))]
pub fn push_value(words: &mut Vec<Word>, token: Token) -> Result<(), AllocError>
    ensures values { OnOk result ((hs : List Held) →
        values_in hs words.new.items [] ≡ more_values (token_of token) (values_in hs words.old.items [])) }
    ensures below { OnOk result ((n : ℕ) → AllBelow n words.old.items → AllBelow n words.new.items) }
{
    match token {
        Token::Number(number) => Ok(words.push(Word::Int(number))?),
        Token::Truth(truth) => Ok(words.push(Word::Bool(truth))?),
        Token::Sign(Sign::Leaf | Sign::Nothing) => Ok(words.push(Word::Empty)?),
        _ => Ok(()),
    }
}

// Whether the token, with which some value of the type begins, begins one within the height.
fn begins_within(ty: &Ty, token: Token, height: u32, known: bool) -> bool
    requires known { known ≡ true → least (ty_of ty.now) ≤ height }
    requires some { is_found (begins (ty_of ty.now) (token_of token)) ≡ true }
    ensures { MatchBool result
        ((h : ℕ) × (begins (ty_of ty.now) (token_of token) ≡ Some h) × (h ≤ height))
        ((h : ℕ) × (begins (ty_of ty.now) (token_of token) ≡ Some h) × (height < h)) }
{
    match ty {
        Ty::Pair(..) => known || fits(ty, height),
        Ty::Tree(element) => match token {
            Token::Sign(Sign::Node) => height > 0 && fits(element, height - 1),
            _ => height > 0,
        },
        Ty::Opt(content) => match token {
            Token::Sign(Sign::Just) => height > 0 && fits(content, height - 1),
            _ => height > 0,
        },
        Ty::Int | Ty::Bool | Ty::List(_) => height > 0,
    }
}

/// Whether a value of the type, in so many forms, can begin with the token. Where some value is known
/// to be within the height, the type is not looked at again.
pub fn judge(ty: &Ty, level: u32, token: Token, known: bool) -> Verdict
    requires level { level ≤ 400 }
    requires known { known ≡ true → least (ty_of ty.now) + level ≤ 400 }
    ensures { IsVerdict (ty_of ty.now) level (token_of token) result }
{
    if !starts(ty, token) {
        Verdict::Shape
    } else if begins_within(ty, token, MOST_HEIGHT - level, known) {
        Verdict::Fits
    } else {
        Verdict::TooDeep
    }
}
