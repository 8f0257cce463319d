// What a name names, wherever it stands.
ghost use Rattle.std.specs.Prelude.{◌≡◌, length, IfOk, option_map, Some};
ghost use Rattle.explain_scopes.specs.Named as n;
ghost use Rattle.explain_scopes.specs.Read.{IsNamedAt, IsReadOf, occurrence_of, occurrence_in, occurrences_of, plain_named, plain_part, plain_parts};

use crate::occurrence::Occurrence;
use crate::source::{Source, names, read};
use lsp_language::{Named, Span};
use raml_syntax::Pos;
use std::alloc::{AllocError, Global};

/// The bytes of a name at a place.
fn bytes_of(at: Pos, name: &str) -> Span
    ensures { plain_part result ≡ n.part at.0 (length name.now) }
{
    let start = at.0 as usize;
    Span {
        start,
        end: start + name.len(),
    }
}

/// Whether the byte meets the name: it is one of its bytes, or stands just behind.
fn meets(name: &Occurrence<'_>, offset: usize) -> bool
    ensures { result ≡ n.meets offset (occurrence_of name.now) }
{
    let place = bytes_of(name.at, name.name.text());
    place.start <= offset && offset <= place.end
}

/// The name that the byte meets.
pub fn met_at<'f, 'a>(found: &'f [Occurrence<'a>], offset: usize) -> Option<&'f Occurrence<'a>>
    ensures { option_map occurrence_in result ≡ n.met_at offset (occurrences_of found.now) }
{
    for name in found {
        if meets(name, offset) {
            return Some(name);
        }
    }
    None
}

/// Whether the name means the binding at this place, and is another one.
fn is_use(name: &Occurrence<'_>, binding: Pos) -> bool
    ensures { result ≡ n.is_use binding.0 (occurrence_of name.now) }
{
    match name.binding {
        Some(place) => place.0 == binding.0 && name.at.0 != binding.0,
        None => false,
    }
}

/// The names that mean the binding at this place.
fn uses(alloc: Global, found: &[Occurrence<'_>], binding: Pos) -> Result<Vec<Span>, AllocError>
    ensures { IfOk result (λ parts. plain_parts parts.items ≡ n.uses binding.0 (occurrences_of found.now)) }
{
    let mut parts = Vec::new(alloc);
    for name in found {
        if is_use(name, binding) {
            parts.push(bytes_of(name.at, name.name.text()))?;
        }
    }
    Ok(parts)
}

/// What a name names; none where it is not bound.
pub fn named_as(
    alloc: Global,
    found: &[Occurrence<'_>],
    name: &Occurrence<'_>,
) -> Result<Option<Named>, AllocError>
    ensures { IfOk result (λ named. option_map plain_named named ≡ n.named_by (occurrences_of found.now) (Some (occurrence_of name.now))) }
{
    let Some(place) = name.binding else {
        return Ok(None);
    };
    Ok(Some(Named {
        binding: bytes_of(place, name.name.text()),
        uses: uses(alloc, found, place)?,
    }))
}

/// What the name names that the byte meets.
fn named_among(
    alloc: Global,
    found: &[Occurrence<'_>],
    offset: usize,
) -> Result<Option<Named>, AllocError>
    ensures { IfOk result (λ named. option_map plain_named named ≡ n.named offset (occurrences_of found.now)) }
{
    match met_at(found, offset) {
        Some(met) => named_as(alloc, found, met),
        None => Ok(None),
    }
}

/// What is named at a byte of what is read.
fn named_in(alloc: Global, read: &Source<'_>, offset: usize) -> Result<Option<Named>, AllocError>
    requires { IsReadOf read.now }
    ensures { IfOk result (IsNamedAt read.now.bytes.now offset) }
{
    let found = names(alloc, read)?;
    named_among(alloc, &found, offset)
}

/// What the name names that stands at a byte of a source, or just before it: its binding and all its uses. None where no name stands
/// there, or one that is not bound, or where the source spells no program.
pub fn named_at(alloc: Global, source: &[u8], offset: usize) -> Result<Option<Named>, AllocError>
    ensures { IfOk result (IsNamedAt source.now offset) }
{
    match read(alloc, source)? {
        Some(read) => named_in(alloc, &read, offset),
        None => Ok(None),
    }
}
