// Groups of functions whose rounds are paid for by a list.
ghost use Rattle.std.specs.Prelude.{◌≡◌, ◌<◌, ◌≤◌, ◌^◌, ◌++◌, length, true, IfOk, IfSome, OnOk, string_bytes};
ghost use Rattle.raml_syntax.specs.Read.{program_of};
ghost use Rattle.call_groups.specs.Read.{ids_of};
ghost use Rattle.explain_edits.specs.Read.{edits_of};
ghost use Rattle.explain_lines.specs.Read.{lines_of};
ghost use Rattle.explain_supply.specs.Supply.{IsSupplied, AreRoundEdits, group_lines};

use crate::group::Group;
use crate::source::{RoundEdits, round_edits};
use cost_free::Meter;
use explain_lines::{Line, has_bounds};
use explain_mending::Original;
use explain_trials::{Trial, try_edits};
use raml_syntax::FunId;
use std::alloc::{AllocError, Global};

/// A program in which a list pays for the rounds of a group of functions, so that all of them have bounds.
#[derive(Drop)]
pub struct Supplied {
    /// The changed source, and what analyses find of it.
    pub trial: Trial,
    /// The name of the list, which is the first parameter of each of the functions.
    pub name: String,
    /// The functions of the group with all meters.
    pub lines: Vec<Line>,
}

/// Adds all lines of the functions.
fn group_lines(alloc: Global, group: &[FunId]) -> Result<Vec<Line>, AllocError>
    ensures { IfOk result (λ lines. lines_of lines.items ≡ group_lines (ids_of group.now)) }
{
    let mut lines = Vec::new(alloc);
    for fun in group {
        let fun = *fun;
        lines.extend_from_slice(&[
            Line {
                fun,
                meter: Meter::Ticks,
            },
            Line {
                fun,
                meter: Meter::Cells,
            },
            Line {
                fun,
                meter: Meter::Work,
            },
        ])?;
    }
    Ok(lines)
}

/// The program in which each round of the group takes an entry of a list, which is a new first parameter of its functions.
/// None where one of them has no bound of some meter so, or where the text spells no typed program, as where a function
/// has as many parameters as it may have.
pub fn supply<'s, 'a>(
    alloc: Global,
    original: Original<'s, 'a>,
    group: &[FunId],
) -> Result<Option<Supplied>, AllocError>
    requires most { original.most ≤ 4 }
    requires few { length (program_of original.program.now) < 2 ^ 32 }
    ensures { IfOk result (λ supplied. IfSome supplied (IsSupplied original.entry.source.now (program_of original.entry.program.now)
        original.entry.most (ids_of group.now))) }
{
    let functions = Group {
        program: original.program,
        funs: group,
    };
    match round_edits(alloc, original.source, functions)? {
        Some(rounds) => try_round_edits(alloc, original, group, rounds),
        None => Ok(None),
    }
}

/// The trial of these edits, where all functions of the group have bounds in it.
fn try_round_edits<'s, 'a>(
    alloc: Global,
    original: Original<'s, 'a>,
    group: &[FunId],
    rounds: RoundEdits,
) -> Result<Option<Supplied>, AllocError>
    requires most { original.most ≤ 4 }
    requires rounds { AreRoundEdits original.source.now (program_of original.program.now) (ids_of group.now) (string_bytes rounds.name)
        (edits_of rounds.edits.items) }
    ensures { IfOk result (λ supplied. IfSome supplied (IsSupplied original.entry.source.now (program_of original.entry.program.now)
        original.entry.most (ids_of group.now))) }
{
    let RoundEdits { name, edits } = rounds;
    let Some(trial) = try_edits(alloc, original.source, &edits, original.most)? else {
        return Ok(None);
    };
    let lines = group_lines(alloc, group)?;
    if has_bounds(&trial.found.functions, &lines) {
        Ok(Some(Supplied { trial, name, lines }))
    } else {
        Ok(None)
    }
}
