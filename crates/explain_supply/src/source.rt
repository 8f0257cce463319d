// The edits of a source by which each round takes an entry of a list.
ghost use Rattle.std.specs.Prelude.{◌<◌, ◌^◌, length, IfOk, IfSome, string_bytes};
ghost use Rattle.std.specs.Str.{IsUtf8};
ghost use Rattle.raml_syntax.specs.Read.{program_of};
ghost use Rattle.call_groups.specs.Read.{ids_of};
ghost use Rattle.raml_parse.specs.Spelling.{HasTokens};
ghost use Rattle.parse_table.specs.Read.{pieces};
ghost use Rattle.explain_edits.specs.Read.{edits_of};
ghost use Rattle.explain_supply.specs.Supply.{AreRoundEdits};

use crate::group::Group;
use crate::insertions::insertions;
use crate::names::Names;
use explain_check::MOST_BYTES;
use explain_edits::Edit;
use parse_table::pieces::pieces_of;
use parse_table::token::Piece;
use raml_lex::{LexFault, tokens};
use std::alloc::{AllocError, Global};

/// The name of a list, and the edits by which each round takes an entry of it.
#[derive(Drop)]
pub(crate) struct RoundEdits {
    pub(crate) name: String,
    pub(crate) edits: Vec<Edit>,
}

/// The tokens of a text, where it has no lexical fault.
fn pieces_in<'a>(alloc: Global, text: &'a str) -> Result<Option<Vec<Piece<'a>>>, AllocError>
    requires utf8 { IsUtf8 text.now }
    requires short { length text.now < 2 ^ 31 }
    ensures { IfOk result (λ found. IfSome found (λ ps. HasTokens text.now (pieces ps.items))) }
{
    match tokens(alloc, text) {
        Ok(tokens) => Ok(Some(pieces_of(alloc, text, &tokens)?)),
        Err(LexFault::NoMemory) => Err(AllocError),
        Err(_) => Ok(None),
    }
}

/// The edits by which each round of the group takes an entry of a list. None where the source is no text, or no name is fresh.
pub(crate) fn round_edits(
    alloc: Global,
    source: &[u8],
    group: Group<'_, '_>,
) -> Result<Option<RoundEdits>, AllocError>
    requires { length (program_of group.program.now) < 2 ^ 32 }
    ensures { IfOk result (λ found. IfSome found (λ rounds. AreRoundEdits source.now (program_of group.entry.program.now)
        (ids_of group.entry.funs.now) (string_bytes rounds.name) (edits_of rounds.edits.items))) }
{
    if source.len() as u64 > MOST_BYTES {
        return Ok(None);
    }
    match std::str::from_utf8(source) {
        Ok(text) => edits_in_text(alloc, text, group),
        Err(_) => Ok(None),
    }
}

/// The same of a text.
fn edits_in_text(
    alloc: Global,
    text: &str,
    group: Group<'_, '_>,
) -> Result<Option<RoundEdits>, AllocError>
    requires utf8 { IsUtf8 text.now }
    requires short { length text.now < 2 ^ 31 }
    requires few { length (program_of group.program.now) < 2 ^ 32 }
    ensures { IfOk result (λ found. IfSome found (λ rounds. AreRoundEdits text.now (program_of group.entry.program.now)
        (ids_of group.entry.funs.now) (string_bytes rounds.name) (edits_of rounds.edits.items))) }
{
    let Some(pieces) = pieces_in(alloc, text)? else {
        return Ok(None);
    };
    match Names::fresh(alloc, &pieces)? {
        Some(names) => {
            let edits = insertions(alloc, group, &names, &pieces)?;
            Ok(Some(RoundEdits {
                name: names.rounds,
                edits,
            }))
        }
        None => Ok(None),
    }
}
