// The insertions in a source.
ghost use Rattle.std.specs.Prelude.{◌≡◌, ◌<◌, ◌^◌, ◌++◌, length, IfOk, OnOk};
ghost use Rattle.std.specs.Option.{option_map};
ghost use Rattle.raml_syntax.specs.Read.{program_of};
ghost use Rattle.call_groups.specs.Read.{ids_of};
ghost use Rattle.parse_table.specs.Read.{pieces, token_of};
ghost use Rattle.explain_edits.specs.Read.{edits_of};
ghost use Rattle.explain_supply.specs.Insertions as i;
ghost use Rattle.explain_supply.specs.Read.{names_of, insertion_of};

use crate::group::Group;
use crate::insertion::Insertion;
use crate::names::Names;
use crate::place::Place;
use explain_edits::Edit;
use parse_table::token::Piece;
use std::alloc::{AllocError, Global};

/// Adds what is inserted right behind a token, which is a parenthesis or a `=`.
fn push_behind(
    alloc: Global,
    names: &Names,
    token: &Piece<'_>,
    insertion: Option<Insertion<'_>>,
    edits: &mut Vec<Edit>,
) -> Result<(), AllocError>
    ensures { OnOk result (edits_of edits.new.items ≡ edits_of edits.old.items
        ++ i.edit_behind (names_of names.now) (token_of token.now) (option_map insertion_of insertion.entry)) }
{
    match insertion {
        Some(insertion) => {
            let text = insertion.text(alloc, names)?;
            edits.push(Edit {
                at: token.at.0 as usize + 1,
                length: 0,
                text,
            })?;
            Ok(())
        }
        None => Ok(()),
    }
}

/// All insertions by which each round of a group takes an entry of a list.
pub(crate) fn insertions(
    alloc: Global,
    group: Group<'_, '_>,
    names: &Names,
    tokens: &[Piece<'_>],
) -> Result<Vec<Edit>, AllocError>
    requires { length (program_of group.program.now) < 2 ^ 32 }
    ensures { IfOk result (λ edits. edits_of edits.items ≡ i.edits (program_of group.entry.program.now) (ids_of group.entry.funs.now)
        (names_of names.now) (pieces tokens.now)) }
{
    let mut edits = Vec::new(alloc);
    let mut place = Place::Outside;
    for token in tokens {
        push_behind(
            alloc,
            names,
            token,
            group.inserted(place, token),
            &mut edits,
        )?;
        place = place.next(token);
    }
    Ok(edits)
}
