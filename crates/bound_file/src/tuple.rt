// The texts of tuples of indices.
ghost use Rattle.std.specs.Prelude.{◌≡◌, ◌∷◌, [], IfOk, false};
ghost use Rattle.bound_file.specs.Tuples.{Index, Entries, More, begin_index, met, seen_by, is_done, reads, is_tuple, Meets};

use std::alloc::{AllocError, Global};

/// What is to be read next of the text of a tuple.
#[derive(Clone, Copy, PartialEq, Eq, Debug)]
pub enum Goal {
    Index,
    /// The entries of a list, and the bracket behind them.
    Entries,
    /// More indices, each behind a comma and a space, and this byte behind the last one.
    More(u8),
    Byte(u8),
}

// An index begins with the byte: puts down what is to be read of it then. False where none does.
fn begin_index(goals: &mut Vec<Goal>, byte: u8) -> Result<bool, AllocError>
    ensures { IfOk result (λ can. Meets can (begin_index byte) goals.old.items goals.new.items) }
{
    match byte {
        b'_' => Ok(true),
        b'(' => {
            goals.extend_from_slice(&[
                Goal::Byte(b')'),
                Goal::Index,
                Goal::Byte(b' '),
                Goal::Byte(b','),
                Goal::Index,
            ])?;
            Ok(true)
        }
        b'[' => {
            goals.push(Goal::Entries)?;
            Ok(true)
        }
        _ => Ok(false),
    }
}

// The same for the first of the entries of a list, or for the bracket behind them.
fn begin_entries(goals: &mut Vec<Goal>, byte: u8) -> Result<bool, AllocError>
    ensures { IfOk result (λ can. Meets can (met Entries byte) goals.old.items goals.new.items) }
{
    if byte == b']' {
        return Ok(true);
    }
    goals.push(Goal::More(b']'))?;
    let can = begin_index(goals, byte)?;
    Ok(can)
}

// The same for what stands behind an index.
fn go_on(goals: &mut Vec<Goal>, close: u8, byte: u8) -> Result<bool, AllocError>
    ensures { IfOk result (λ can. Meets can (met (More close) byte) goals.old.items goals.new.items) }
{
    if byte == close {
        return Ok(true);
    }
    if byte != b',' {
        return Ok(false);
    }
    goals.extend_from_slice(&[Goal::More(close), Goal::Index, Goal::Byte(b' ')])?;
    Ok(true)
}

// The goal meets the byte: puts down what is to be read then. False where it can't.
fn meet(goals: &mut Vec<Goal>, goal: Goal, byte: u8) -> Result<bool, AllocError>
    ensures { IfOk result (λ can. Meets can (met goal byte) goals.old.items goals.new.items) }
{
    match goal {
        Goal::Index => begin_index(goals, byte),
        Goal::Entries => begin_entries(goals, byte),
        Goal::More(close) => go_on(goals, close, byte),
        Goal::Byte(wanted) => Ok(byte == wanted),
    }
}

// Whether an entry of a list begins with the byte, or was seen before.
fn seen_by(goal: Goal, byte: u8, seen: bool) -> bool
    ensures { result ≡ seen_by goal byte seen }
{
    match goal {
        Goal::Entries => seen || byte != b']',
        _ => seen,
    }
}

// Whether nothing is left to be read, and an entry of a list was seen.
fn is_done(seen: bool, goals: &[Goal]) -> bool
    ensures { result ≡ is_done seen goals.now }
{
    match goals {
        [] => seen,
        [_goal, _more @ ..] => false,
    }
}

// Whether indices are read in the text, and then a bracket, which ends it; and an entry of a list among them.
fn reads(alloc: Global, text: &[u8]) -> Result<bool, AllocError>
    ensures { IfOk result (λ can. can ≡ reads false (Index ∷ More 62 ∷ []) text.now) }
{
    let mut goals = Vec::new(alloc);
    goals.extend_from_slice(&[Goal::More(b'>'), Goal::Index])?;
    let mut seen = false;
    for byte in text {
        let Some(goal) = goals.pop() else {
            return Ok(false);
        };
        seen = seen_by(goal, *byte, seen);
        let can = meet(&mut goals, goal, *byte)?;
        if !can {
            return Ok(false);
        }
    }
    Ok(is_done(seen, &goals))
}

/// Whether this is the text of a tuple that is not the zero tuple, as `<[_], []>`: of any indices, as deep
/// as they are.
pub fn is_tuple(alloc: Global, text: &[u8]) -> Result<bool, AllocError>
    ensures { IfOk result (λ can. can ≡ is_tuple text.now) }
{
    match text {
        [b'<', rest @ ..] => reads(alloc, rest),
        _ => Ok(false),
    }
}
