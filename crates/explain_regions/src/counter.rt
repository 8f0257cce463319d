// A source with a counter in a region.
ghost use Rattle.std.specs.Prelude.{◌≡◌, ◌++◌, IfOk, OnOk};
ghost use Rattle.raml_parse.specs.Spelling.{HasTokens, place_of};
ghost use Rattle.parse_table.specs.Read.{pieces, token_of};
ghost use Rattle.explain_edits.specs.Read.{edit_of, edits_of};
ghost use Rattle.explain_regions.specs.Counter as c;
ghost use Rattle.explain_regions.specs.Counter.{AreCounterEdits, IsLexed};

use explain_edits::Edit;
use parse_table::pieces::pieces_of;
use parse_table::token::{Piece, Sign};
use raml_lex::{LexFault, tokens};
use raml_syntax::Pos;
use std::alloc::{AllocError, Global};

/// Adds the tick, where the region begins with the token.
fn push_insertion(
    alloc: Global,
    region: Pos,
    token: &Piece<'_>,
    edits: &mut Vec<Edit>,
) -> Result<(), AllocError>
    ensures { OnOk result (edits_of edits.new.items ≡ edits_of edits.old.items ++ c.insertion region.0 (token_of token.now)) }
{
    if token.at.0 == region.0 {
        edits.push(Edit {
            at: region.0 as usize,
            length: 0,
            text: String::from_str(alloc, " tick 1 in ")?,
        })?;
    }
    Ok(())
}

/// Adds what takes out a tick, where the token begins one.
fn push_removal(
    alloc: Global,
    token: &Piece<'_>,
    rest: &[Piece<'_>],
    edits: &mut Vec<Edit>,
) -> Result<(), AllocError>
    ensures { OnOk result (edits_of edits.new.items ≡ edits_of edits.old.items ++ c.removal (token_of token.now) (pieces rest.now)) }
{
    match rest {
        [_, last, ..] => {
            if token.is(Sign::Tick) {
                edits.push(removed(alloc, token, last)?)?;
            }
            Ok(())
        }
        _ => Ok(()),
    }
}

/// A space in the place of these tokens and what is between them.
fn removed(alloc: Global, first: &Piece<'_>, last: &Piece<'_>) -> Result<Edit, AllocError>
    ensures { IfOk result (λ edit. edit_of edit ≡ c.removed (place_of (token_of first.now)) (place_of (token_of last.now))) }
{
    let at = first.at.0 as usize;
    Ok(Edit {
        at,
        length: (last.at.0 as usize + 2).saturating_sub(at),
        text: String::from_str(alloc, " ")?,
    })
}

/// The edits that put a counter in the region that begins there.
fn edits_for(alloc: Global, region: Pos, tokens: &[Piece<'_>]) -> Result<Vec<Edit>, AllocError>
    ensures { IfOk result (λ edits. edits_of edits.items ≡ c.edits region.0 (pieces tokens.now)) }
{
    let mut edits = Vec::new(alloc);
    for place in 0..tokens.len() {
        push_insertion(alloc, region, &tokens[place], &mut edits)?;
        push_removal(alloc, &tokens[place], &tokens[place + 1..], &mut edits)?;
    }
    Ok(edits)
}

/// The tokens of a text.
fn pieces_in<'a>(alloc: Global, text: &'a str) -> Result<Vec<Piece<'a>>, AllocError>
    requires { IsLexed text.now }
    ensures { IfOk result (λ found. HasTokens text.now (pieces found.items)) }
{
    match tokens(alloc, text) {
        Ok(tokens) => pieces_of(alloc, text, &tokens),
        Err(LexFault::NoMemory) => Err(AllocError),
        Err(LexFault::BadChar { .. }) => unreachable!(),
        Err(LexFault::NumberTooWide { .. }) => unreachable!(),
        Err(LexFault::OpenComment { .. }) => unreachable!(),
    }
}

/// The edits of a text by which each entry of the region that begins there costs one tick.
fn edits_in_text(alloc: Global, text: &str, region: Pos) -> Result<Vec<Edit>, AllocError>
    requires { IsLexed text.now }
    ensures { IfOk result (λ edits. AreCounterEdits text.now region.0 (edits_of edits.items)) }
{
    let tokens = pieces_in(alloc, text)?;
    edits_for(alloc, region, &tokens)
}

/// The edits of a source by which each entry of the region that begins there costs one tick, and nothing else costs any.
pub fn counter_edits(alloc: Global, source: &[u8], region: Pos) -> Result<Vec<Edit>, AllocError>
    requires { IsLexed source.now }
    ensures { IfOk result (λ edits. AreCounterEdits source.now region.0 (edits_of edits.items)) }
{
    match std::str::from_utf8(source) {
        Ok(text) => edits_in_text(alloc, text, region),
        Err(_) => unreachable!(),
    }
}
