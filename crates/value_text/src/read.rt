// Arguments from data.
ghost use Rattle.std.specs.Prelude.{◌≡◌, MatchBool, ◌≤◌, ◌<◌, ◌+◌, ◌^◌, [], OnOk, OnErr, IfOk, IfErr, length, map};
ghost use Rattle.raml_syntax.specs.Read.{ty_of};
ghost use Rattle.value_text.specs.Goals.{AllFit};
ghost use Rattle.value_text.specs.Tokens.{token_of};
ghost use Rattle.value_text.specs.State.{goals_of, Grows};
ghost use Rattle.value_text.specs.Ends.{is_started, start, IsRead, StopsWith, IsFault};
ghost use Rattle.value_text.specs.Reading.{AreRead, FirstFault, HasOneAnswer};

use crate::fault::{DataFault, Kind, Stop};
use crate::goal::{Goal, MOST_HEIGHT, fits, starts};
use crate::heap::DataHeap;
use crate::sign::Sign;
use crate::taking::turn;
use crate::token::{Token, next};
use crate::word::Word;
use raml_syntax::{Pos, Ty};
use std::alloc::{AllocError, Global};

// Puts down what is to be read at the start.
fn begin<'a>(goals: &mut Vec<Goal<'a>>, types: &'a [Ty]) -> Result<(), AllocError>
    requires { goals.old.items ≡ [] }
    ensures { OnOk result (goals_of goals.new.items ≡ start (map ty_of types.now)) }
{
    match types {
        [] => Ok(()),
        [one] => Ok(goals.push(Goal::Value(one, 0))?),
        [first, rest @ ..] => goals.extend_from_slice(&[
            Goal::More(rest),
            Goal::Value(first, 0),
            Goal::Sign(Sign::Open),
        ]),
    }
}

// The words of the arguments that a whole text spells.
fn read_all(
    alloc: Global,
    text: &[u8],
    types: &[Ty],
    heap: &mut DataHeap,
) -> Result<Vec<Word>, Stop>
    requires some { 1 ≤ length types.now }
    requires fits { AllFit (map ty_of types.now) }
    requires room { length heap.old.cells + length text.now + 1 < 2 ^ 32 }
    ensures ok { IfOk result (λ words. IsRead heap.old.cells heap.new.cells text.now (map ty_of types.now) words.items) }
    ensures stops { IfErr result (StopsWith text.now (map ty_of types.now)) }
    ensures grows { Grows heap.old.cells heap.new.cells }
{
    let mut goals = Vec::new(alloc);
    let mut words = Vec::new(alloc);
    begin(&mut goals, types)?;
    let mut rest = text;
    while let Some(goal) = goals.pop() {
        match turn(heap, &mut goals, &mut words, goal, rest) {
            Ok(behind) => rest = behind,
            Err(stop) => return Err(stop),
        }
    }
    match next(rest) {
        None => Ok(words),
        Some((_, left, _)) => Err(Stop::Fault(Kind::Shape, left)),
    }
}

/// The greatest number of cells of arguments.
const MOST_CELLS: u32 = 1048576;

fn fault_at(kind: Kind, at: Pos) -> DataFault
    ensures { IsFault kind at result }
{
    match kind {
        Kind::Shape => DataFault::Shape { at },
        Kind::TooDeep => DataFault::TooDeep { at },
    }
}

// Whether each type has some value that is low enough.
fn all_fit(types: &[Ty]) -> bool
    ensures { MatchBool result (AllFit (map ty_of types.now)) (AllFit (map ty_of types.now) → ⊥) }
{
    for ty in types {
        if !fits(ty, MOST_HEIGHT) {
            return false;
        }
    }
    true
}

// Whether some arguments of the types begin with the token.
fn starts_all(types: &[Ty], token: Token) -> bool
    ensures { result ≡ is_started (map ty_of types.now) (token_of token) }
{
    match types {
        [] => false,
        [one] => starts(one, token),
        _ => matches!(token, Token::Sign(Sign::Open)),
    }
}

// Where no arguments of the types are low enough: the text's first token.
fn none_fits(text: &[u8], types: &[Ty]) -> Stop
    requires some { 1 ≤ length types.now }
    requires none { AllFit (map ty_of types.now) → ⊥ }
    ensures { StopsWith text.now (map ty_of types.now) result }
{
    match next(text) {
        None => Stop::Fault(Kind::Shape, 0),
        Some((token, left, _)) => {
            if starts_all(types, token) {
                Stop::Fault(Kind::TooDeep, left)
            } else {
                Stop::Fault(Kind::Shape, left)
            }
        }
    }
}

// The words of the arguments that a text spells.
fn read_text(
    alloc: Global,
    text: &[u8],
    types: &[Ty],
    heap: &mut DataHeap,
) -> Result<Vec<Word>, Stop>
    requires some { 1 ≤ length types.now }
    requires room { length heap.old.cells + length text.now + 1 < 2 ^ 32 }
    ensures ok { IfOk result (λ words. IsRead heap.old.cells heap.new.cells text.now (map ty_of types.now) words.items) }
    ensures stops { IfErr result (StopsWith text.now (map ty_of types.now)) }
    ensures grows { Grows heap.old.cells heap.new.cells }
{
    if all_fit(types) {
        read_all(alloc, text, types, heap)
    } else {
        Err(none_fits(text, types))
    }
}

/// The words of the arguments of these types that data spells: one value, or several in parentheses
/// with commas between. White space may stand between tokens, a `-` directly before digits, and zeros
/// in front. The cells that the arguments take are added to the heap.
///
/// # Errors
///
/// The first fault of the data, or `NoMemory`. The heap's cells are then as before.
#[tactic(auto, using(crate::proofs::OneAnswer::one_answer))]
pub fn read_args(
    alloc: Global,
    bytes: &[u8],
    types: &[Ty],
    heap: &mut DataHeap,
) -> Result<Vec<Word>, DataFault>
    requires types { (1 ≤ length types.now) × (length types.now ≤ 8) }
    requires cells { length heap.old.cells < 2 ^ 31 }
    requires bytes { length bytes.now < 2 ^ 31 }
    ensures ok { IfOk result (λ words. AreRead heap.old.cells heap.new.cells bytes.now (map ty_of types.now) words.items) }
    ensures refused { IfErr result (FirstFault bytes.now (map ty_of types.now)) }
    ensures kept { OnErr result (heap.new.cells ≡ heap.old.cells) }
    ensures one_answer { HasOneAnswer bytes.now (map ty_of types.now) }
{
    let base = heap.len();
    match std::str::from_utf8(bytes) {
        Err(error) => Err(DataFault::NotUtf8 {
            at: Pos(error.valid_up_to() as u32),
        }),
        Ok(_) => match read_text(alloc, bytes, types, heap) {
            Ok(words) => {
                if heap.len() - base > MOST_CELLS {
                    heap.forget(base);
                    return Err(DataFault::TooManyCells);
                }
                Ok(words)
            }
            Err(Stop::NoMemory) => {
                heap.forget(base);
                Err(DataFault::NoMemory)
            }
            Err(Stop::Fault(kind, left)) => {
                heap.forget(base);
                Err(fault_at(kind, Pos((bytes.len() - left) as u32)))
            }
        },
    }
}
