// What is answered of the names of a text.
ghost use Rattle.std.specs.Prelude.{◌≡◌, ◌++◌, map, IfOk, OnOk};
ghost use Rattle.serde_json.specs.View.{view};
ghost use Rattle.lsp_results.specs.Names.{IsOfNamed, IsOfNames, definition_json, highlight_json, highlights_json, location_of, references_json};

use crate::diagnostic::location_value;
use crate::outline::{folds_told, symbols_told};
use crate::place::span_value;
use crate::rename::prepared_told;
use lsp_documents::Document;
use lsp_language::{Language, Named, Span};
use lsp_params::NamesAsk;
use lsp_positions::Encoding;
use serde_json::{Value, json, push};
use std::alloc::{AllocError, Global};

/// What is answered where this is asked of the names of a document, by what the language tells of its text.
pub fn names_value<L: Language>(
    alloc: Global,
    language: &L,
    encoding: Encoding,
    document: &Document,
    uri: &str,
    asked: NamesAsk,
) -> Result<Value, AllocError>
    ensures { IfOk result (λ value. IsOfNames (L.tells language.now) encoding document.now.text uri.now asked (view value)) }
{
    match asked {
        NamesAsk::Definition(position) => {
            let place = document.offset(encoding, position);
            definition_told(alloc, language, encoding, document, uri, place)
        }
        NamesAsk::References(position, declared) => {
            let place = document.offset(encoding, position);
            references_told(alloc, language, encoding, document, uri, place, declared)
        }
        NamesAsk::Highlights(position) => {
            let place = document.offset(encoding, position);
            highlights_told(alloc, language, encoding, document, place)
        }
        NamesAsk::Symbols => symbols_told(alloc, language, encoding, document),
        NamesAsk::Folds => folds_told(alloc, language, encoding, document),
        NamesAsk::Prepare(position) => {
            let place = document.offset(encoding, position);
            prepared_told(alloc, language, encoding, document, place)
        }
    }
}

fn definition_told<L: Language>(
    alloc: Global,
    language: &L,
    encoding: Encoding,
    document: &Document,
    uri: &str,
    place: usize,
) -> Result<Value, AllocError>
    ensures { IfOk result (λ value. IsOfNamed (L.tells language.now) document.now.text place (definition_json encoding document.now.text uri.now) (view value)) }
{
    let named = language.named(alloc, document.text(), place)?;
    definition_value(alloc, encoding, document, uri, &named)
}

fn references_told<L: Language>(
    alloc: Global,
    language: &L,
    encoding: Encoding,
    document: &Document,
    uri: &str,
    place: usize,
    declared: bool,
) -> Result<Value, AllocError>
    ensures { IfOk result (λ value. IsOfNamed (L.tells language.now) document.now.text place (references_json encoding document.now.text uri.now declared) (view value)) }
{
    let named = language.named(alloc, document.text(), place)?;
    references_value(alloc, encoding, document, uri, declared, &named)
}

fn highlights_told<L: Language>(
    alloc: Global,
    language: &L,
    encoding: Encoding,
    document: &Document,
    place: usize,
) -> Result<Value, AllocError>
    ensures { IfOk result (λ value. IsOfNamed (L.tells language.now) document.now.text place (highlights_json encoding document.now.text) (view value)) }
{
    let named = language.named(alloc, document.text(), place)?;
    highlights_value(alloc, encoding, document, &named)
}

fn definition_value(
    alloc: Global,
    encoding: Encoding,
    document: &Document,
    uri: &str,
    named: &Option<Named>,
) -> Result<Value, AllocError>
    ensures { IfOk result (λ value. view value ≡ definition_json encoding document.now.text uri.now named.now) }
{
    match named {
        Some(named) => location_at(alloc, encoding, document, uri, named.binding),
        None => Ok(Value::Null),
    }
}

fn location_at(
    alloc: Global,
    encoding: Encoding,
    document: &Document,
    uri: &str,
    span: Span,
) -> Result<Value, AllocError>
    ensures { IfOk result (λ value. view value ≡ location_of encoding document.now.text uri.now span) }
{
    let range = span_value(alloc, encoding, document, span)?;
    location_value(alloc, range, uri)
}

fn references_value(
    alloc: Global,
    encoding: Encoding,
    document: &Document,
    uri: &str,
    declared: bool,
    named: &Option<Named>,
) -> Result<Value, AllocError>
    ensures { IfOk result (λ value. view value ≡ references_json encoding document.now.text uri.now declared named.now) }
{
    let mut items = Vec::new(alloc);
    if let Some(named) = named {
        if declared {
            push(
                &mut items,
                location_at(alloc, encoding, document, uri, named.binding)?,
            )?;
        }
        push_locations(&mut items, alloc, encoding, document, uri, &named.uses)?;
    }
    Ok(Value::Array(items))
}

fn push_locations(
    items: &mut Vec<Value>,
    alloc: Global,
    encoding: Encoding,
    document: &Document,
    uri: &str,
    spans: &[Span],
) -> Result<(), AllocError>
    ensures { OnOk result (map view items.new.items ≡ map view items.old.items ++ map (location_of encoding document.now.text uri.now) spans.now) }
{
    for span in spans {
        push(items, location_at(alloc, encoding, document, uri, *span)?)?;
    }
    Ok(())
}

fn highlights_value(
    alloc: Global,
    encoding: Encoding,
    document: &Document,
    named: &Option<Named>,
) -> Result<Value, AllocError>
    ensures { IfOk result (λ value. view value ≡ highlights_json encoding document.now.text named.now) }
{
    let mut items = Vec::new(alloc);
    if let Some(named) = named {
        push(
            &mut items,
            highlight_value(alloc, encoding, document, WRITTEN, named.binding)?,
        )?;
        push_read(&mut items, alloc, encoding, document, &named.uses)?;
    }
    Ok(Value::Array(items))
}

// The kinds of places where a name is read, and where it is bound.
const READ: u32 = 2;

const WRITTEN: u32 = 3;

fn push_read(
    items: &mut Vec<Value>,
    alloc: Global,
    encoding: Encoding,
    document: &Document,
    spans: &[Span],
) -> Result<(), AllocError>
    ensures { OnOk result (map view items.new.items ≡ map view items.old.items ++ map (highlight_json encoding document.now.text 2) spans.now) }
{
    for span in spans {
        push(
            items,
            highlight_value(alloc, encoding, document, READ, *span)?,
        )?;
    }
    Ok(())
}

fn highlight_value(
    alloc: Global,
    encoding: Encoding,
    document: &Document,
    kind: u32,
    span: Span,
) -> Result<Value, AllocError>
    ensures { IfOk result (λ value. view value ≡ highlight_json encoding document.now.text kind span) }
{
    let range = span_value(alloc, encoding, document, span)?;
    json!(in alloc; {"kind": kind, "range": range})
}
