// Another name for what is named.
ghost use Rattle.std.specs.Prelude.{◌≡◌, IfOk};
ghost use Rattle.explain_scopes.specs.Renaming as r;
ghost use Rattle.explain_scopes.specs.Read.{IsReadOf, IsRenamedAt, occurrence_of, occurrences_of, plain_named, plain_outcome};

use crate::lexed::{MOST_BYTES, lexed};
use crate::named::{met_at, named_as};
use crate::occurrence::{Kind, Occurrence};
use crate::outline::word;
use crate::source::{Source, names, read};
use lsp_language::{Named, Refusal, Renaming};
use raml_lex::TokenKind;
use raml_syntax::Pos;
use std::alloc::{AllocError, Global};

/// Whether a text is a name of the language.
fn is_name(alloc: Global, text: &str) -> Result<bool, AllocError>
    ensures { IfOk result (r.IsNameTold text.now) }
{
    if text.len() > MOST_BYTES {
        return Ok(false);
    }
    let Some(tokens) = lexed(alloc, text)? else {
        return Ok(false);
    };
    Ok(match tokens.as_slice() {
        [token] => matches!(token.kind, TokenKind::Name) && word(text, token) == text,
        _ => false,
    })
}

/// Whether a function gets its name here.
fn heads(name: &Occurrence<'_>) -> bool
    ensures { result ≡ r.heads (occurrence_of name.now) }
{
    match (name.kind, name.binding) {
        (Kind::Function, Some(place)) => place.0 == name.at.0,
        _ => false,
    }
}

/// Whether a function gets its name behind one place, and not behind another.
fn parts_at(found: &[Occurrence<'_>], from: Pos, to: Pos) -> bool
    ensures { result ≡ r.parts_at from.0 to.0 (occurrences_of found.now) }
{
    for name in found {
        if heads(name) && from.0 < name.at.0 && name.at.0 <= to.0 {
            return true;
        }
    }
    false
}

/// Whether both places are in one function.
fn in_one(found: &[Occurrence<'_>], one: Pos, other: Pos) -> bool
    ensures { result ≡ r.in_one one.0 other.0 (occurrences_of found.now) }
{
    !parts_at(found, one, other) && !parts_at(found, other, one)
}

/// Whether it has this name, and could be taken for what is named at `met`, if that had the name, too.
fn takes(found: &[Occurrence<'_>], met: &Occurrence<'_>, name: &str, other: &Occurrence<'_>) -> bool
    ensures { result ≡ r.takes (occurrences_of found.now) (occurrence_of met.now) name.now (occurrence_of other.now) }
{
    match (met.kind, other.kind) {
        (Kind::Function, Kind::Function) => other.name.text() == name,
        (Kind::Variable, Kind::Variable) => {
            other.name.text() == name && in_one(found, met.at, other.at)
        }
        _ => false,
    }
}

/// Whether the name is in use where what is named at `met` could be taken for what has it.
fn in_use(found: &[Occurrence<'_>], met: &Occurrence<'_>, name: &str) -> bool
    ensures { result ≡ r.in_use (occurrences_of found.now) (occurrence_of met.now) name.now }
{
    for other in found {
        if takes(found, met, name, other) {
            return true;
        }
    }
    false
}

/// The parts in which what is named stands, in the order of the text but for the binding, which comes first.
fn parts_of(alloc: Global, named: &Named) -> Result<Renaming, AllocError>
    ensures { IfOk result (λ outcome. plain_outcome outcome ≡ r.parts_of (plain_named named.now)) }
{
    let mut parts = Vec::with_capacity(alloc, named.uses.len() + 1)?;
    parts.push(named.binding)?;
    parts.extend_from_slice(&named.uses)?;
    Ok(Renaming::Parts(parts))
}

/// What comes of a name for what the name names that the byte meets.
fn renamed_among(
    alloc: Global,
    found: &[Occurrence<'_>],
    offset: usize,
    name: &str,
) -> Result<Renaming, AllocError>
    ensures { IfOk result (λ outcome. r.IsRenaming (occurrences_of found.now) offset name.now (plain_outcome outcome)) }
{
    let Some(met) = met_at(found, offset) else {
        return Ok(Renaming::Refused(Refusal::Nothing));
    };
    let Some(named) = named_as(alloc, found, met)? else {
        return Ok(Renaming::Refused(Refusal::Nothing));
    };
    if !is_name(alloc, name)? {
        return Ok(Renaming::Refused(Refusal::NoName));
    }
    if in_use(found, met, name) {
        return Ok(Renaming::Refused(Refusal::InUse));
    }
    parts_of(alloc, &named)
}

/// The same of what is read.
fn renamed_in(
    alloc: Global,
    read: &Source<'_>,
    offset: usize,
    name: &str,
) -> Result<Renaming, AllocError>
    requires { IsReadOf read.now }
    ensures { IfOk result (IsRenamedAt read.now.bytes.now offset name.now) }
{
    let found = names(alloc, read)?;
    renamed_among(alloc, &found, offset, name)
}

/// What comes of another name for what is named at a byte of a source, or just before it: the parts of the source in which it is to
/// stand, the binding before the uses. It is refused where nothing is named there, where it is no name of the language, and where it is
/// in use: for a function anywhere as one of a function, for a variable in the same function as one of a variable.
pub fn renamed_at(
    alloc: Global,
    source: &[u8],
    offset: usize,
    name: &str,
) -> Result<Renaming, AllocError>
    ensures { IfOk result (IsRenamedAt source.now offset name.now) }
{
    match read(alloc, source)? {
        Some(read) => renamed_in(alloc, &read, offset, name),
        None => Ok(Renaming::Refused(Refusal::Nothing)),
    }
}
