// What is shown where the pointer rests.
ghost use Rattle.std.specs.Prelude.{◌≡◌, IfOk, [], option_map};
ghost use Rattle.serde_json.specs.View.{view};
ghost use Rattle.lsp_results.specs.Hovers.{holds, first_at, markup_json, hover_json, hover_or_null, IsHoverAt};

use crate::place::put_span;
use lsp_documents::Document;
use lsp_language::{Hover, Language, Span};
use lsp_positions::Encoding;
use serde_json::{Map, Value, json, put};
use std::alloc::{AllocError, Global};

/// The answer to a hover at a place of a document: the first of these that is met there, or else what the language tells there.
pub fn hover_at<L: Language>(
    alloc: Global,
    language: &L,
    encoding: Encoding,
    document: &Document,
    place: usize,
    known: &[Hover],
) -> Result<Value, AllocError>
    ensures { IfOk result (λ value. IsHoverAt (L.tells language.now) encoding document.now.text place known.now (view value)) }
{
    match first_at(place, known) {
        Some(hover) => hover_value(alloc, encoding, document, hover),
        None => told_at(alloc, language, encoding, document, place),
    }
}

// What the language tells at a place of a document.
fn told_at<L: Language>(
    alloc: Global,
    language: &L,
    encoding: Encoding,
    document: &Document,
    place: usize,
) -> Result<Value, AllocError>
    ensures { IfOk result (λ value. IsHoverAt (L.tells language.now) encoding document.now.text place [] (view value)) }
{
    let hover = language.hover(alloc, document.text(), place)?;
    hover_or_null(alloc, encoding, document, &hover)
}

// A hover, or null where there is none.
fn hover_or_null(
    alloc: Global,
    encoding: Encoding,
    document: &Document,
    hover: &Option<Hover>,
) -> Result<Value, AllocError>
    ensures { IfOk result (λ value. view value ≡ hover_or_null encoding document.now.text hover.now) }
{
    match hover {
        Some(hover) => hover_value(alloc, encoding, document, hover),
        None => Ok(Value::Null),
    }
}

// The first of them whose part holds the place.
fn first_at(place: usize, hovers: &[Hover]) -> Option<&Hover>
    ensures { option_map (λ hover. hover.now) result ≡ first_at place hovers.now }
{
    for hover in hovers {
        if holds(hover.span, place) {
            return Some(hover);
        }
    }
    None
}

// Whether the place is the start of the part, or between its start and its end.
fn holds(span: Span, place: usize) -> bool
    ensures { result ≡ holds span place }
{
    span.start == place || (span.start <= place && place < span.end)
}

fn hover_value(
    alloc: Global,
    encoding: Encoding,
    document: &Document,
    hover: &Hover,
) -> Result<Value, AllocError>
    ensures { IfOk result (λ value. view value ≡ hover_json encoding document.now.text hover.now) }
{
    let mut members = Map::new(alloc);
    put(
        &mut members,
        alloc,
        "contents",
        markup_value(alloc, hover.text.as_str())?,
    )?;
    put_span(&mut members, alloc, encoding, document, hover.span)?;
    Ok(Value::Object(members))
}

fn markup_value(alloc: Global, text: &str) -> Result<Value, AllocError>
    ensures { IfOk result (λ value. view value ≡ markup_json text.now) }
{
    json!(in alloc; {"kind": "markdown", "value": text})
}
