// Another name for what is named in a text.
ghost use Rattle.std.specs.Prelude.{◌≡◌, ◌∷◌, ◌++◌, map, IfOk, OnOk};
ghost use Rattle.serde_json.specs.View.{view};
ghost use Rattle.lsp_results.specs.Answers.{IsPlain, answer_view};
ghost use Rattle.lsp_results.specs.Names.{IsOfNamed};
ghost use Rattle.lsp_results.specs.Renames.{IsRenamed, failure_of, is_at, part_at, prepared_json, rename_json, renames_json, renaming_answer, span_or_null};

use crate::action::workspace_value;
use crate::place::{end_of, put_span, put_text, span_value};
use lsp_documents::Document;
use lsp_language::{Language, Named, Refusal, Renaming, Span};
use lsp_positions::{Encoding, Position};
use lsp_requests::{ErrorCode, Failure};
use serde_json::{Map, Value, push};
use std::alloc::{AllocError, Global};

/// What is answered where this name is wanted for what stands at a position of a document, by what the language tells of it: the edits
/// that make it so, or why there are none.
pub fn renamed_value<L: Language>(
    alloc: Global,
    language: &L,
    encoding: Encoding,
    document: &Document,
    uri: &str,
    position: Position,
    name: &str,
) -> Result<Result<Value, ErrorCode>, AllocError>
    ensures answer { IfOk result (λ answer. IsRenamed (L.tells language.now) encoding document.now.text uri.now position name.now (answer_view answer)) }
    ensures plain { IfOk result (λ answer. IsPlain (answer_view answer)) }
{
    answer_of(alloc, language, encoding, document, uri, position, name)
}

fn answer_of<L: Language>(
    alloc: Global,
    language: &L,
    encoding: Encoding,
    document: &Document,
    uri: &str,
    position: Position,
    name: &str,
) -> Result<Result<Value, ErrorCode>, AllocError>
    ensures { IfOk result (λ answer. IsRenamed (L.tells language.now) encoding document.now.text uri.now position name.now (answer_view answer)) }
{
    let place = document.offset(encoding, position);
    let renaming = language.renamed(alloc, document.text(), place, name)?;
    renaming_answer(alloc, encoding, document, uri, name, &renaming)
}

fn renaming_answer(
    alloc: Global,
    encoding: Encoding,
    document: &Document,
    uri: &str,
    name: &str,
    renaming: &Renaming,
) -> Result<Result<Value, ErrorCode>, AllocError>
    ensures { IfOk result (λ answer. answer_view answer ≡ renaming_answer encoding document.now.text uri.now name.now renaming.now) }
{
    match renaming {
        Renaming::Parts(parts) => {
            let edits = renames_value(alloc, encoding, document, name, parts)?;
            Ok(Ok(workspace_value(alloc, uri, edits)?))
        }
        Renaming::Refused(refusal) => Ok(Err(ErrorCode::RequestFailed(failure_of(*refusal)))),
    }
}

fn failure_of(refusal: Refusal) -> Failure
    ensures { result ≡ failure_of refusal }
{
    match refusal {
        Refusal::Nothing => Failure::NothingNamed,
        Refusal::NoName => Failure::NoName,
        Refusal::InUse => Failure::NameInUse,
    }
}

fn renames_value(
    alloc: Global,
    encoding: Encoding,
    document: &Document,
    name: &str,
    spans: &[Span],
) -> Result<Value, AllocError>
    ensures { IfOk result (λ value. view value ≡ renames_json encoding document.now.text name.now spans.now) }
{
    let mut items = Vec::new(alloc);
    push_renames(&mut items, alloc, encoding, document, name, spans)?;
    Ok(Value::Array(items))
}

fn push_renames(
    items: &mut Vec<Value>,
    alloc: Global,
    encoding: Encoding,
    document: &Document,
    name: &str,
    spans: &[Span],
) -> Result<(), AllocError>
    ensures { OnOk result (map view items.new.items ≡ map view items.old.items ++ map (rename_json encoding document.now.text name.now) spans.now) }
{
    for span in spans {
        push(items, rename_value(alloc, encoding, document, name, *span)?)?;
    }
    Ok(())
}

fn rename_value(
    alloc: Global,
    encoding: Encoding,
    document: &Document,
    name: &str,
    span: Span,
) -> Result<Value, AllocError>
    ensures { IfOk result (λ value. view value ≡ rename_json encoding document.now.text name.now span) }
{
    let mut members = Map::new(alloc);
    put_text(&mut members, alloc, "newText", name)?;
    put_span(&mut members, alloc, encoding, document, span)?;
    Ok(Value::Object(members))
}

/// The part in which the name at a place of a document stands, which can get another one, by what the language tells that is named there.
pub fn prepared_told<L: Language>(
    alloc: Global,
    language: &L,
    encoding: Encoding,
    document: &Document,
    place: usize,
) -> Result<Value, AllocError>
    ensures { IfOk result (λ value. IsOfNamed (L.tells language.now) document.now.text place (prepared_json encoding document.now.text place) (view value)) }
{
    let named = language.named(alloc, document.text(), place)?;
    prepared_value(alloc, encoding, document, place, &named)
}

fn prepared_value(
    alloc: Global,
    encoding: Encoding,
    document: &Document,
    place: usize,
    named: &Option<Named>,
) -> Result<Value, AllocError>
    ensures { IfOk result (λ value. view value ≡ prepared_json encoding document.now.text place named.now) }
{
    match named {
        Some(named) => span_or_null(alloc, encoding, document, named_at(place, named)),
        None => Ok(Value::Null),
    }
}

fn span_or_null(
    alloc: Global,
    encoding: Encoding,
    document: &Document,
    span: Option<Span>,
) -> Result<Value, AllocError>
    ensures { IfOk result (λ value. view value ≡ span_or_null encoding document.now.text span) }
{
    match span {
        Some(span) => span_value(alloc, encoding, document, span),
        None => Ok(Value::Null),
    }
}

// Where the name stands at a place: the binding, or a use.
fn named_at(place: usize, named: &Named) -> Option<Span>
    ensures { result ≡ part_at place (named.now.binding ∷ named.now.uses.items) }
{
    if is_at(place, named.binding) {
        Some(named.binding)
    } else {
        part_at(place, &named.uses)
    }
}

fn part_at(place: usize, spans: &[Span]) -> Option<Span>
    ensures { result ≡ part_at place spans.now }
{
    for span in spans {
        if is_at(place, *span) {
            return Some(*span);
        }
    }
    None
}

fn is_at(place: usize, span: Span) -> bool
    ensures { result ≡ is_at place span }
{
    span.start <= place && place <= end_of(span)
}
