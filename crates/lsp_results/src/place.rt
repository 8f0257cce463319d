// Places and parts of a text.
ghost use Rattle.std.specs.Prelude.{◌≡◌, codes, IfOk, OnOk};
ghost use Rattle.serde_json.specs.Data.{string, put as with_member};
ghost use Rattle.serde_json.specs.View.{view, members_view};
ghost use Rattle.lsp_results.specs.Places.{position_json, range_json, place_json, end_of, span_json};

use lsp_documents::Document;
use lsp_language::Span;
use lsp_positions::{Encoding, Position};
use serde_json::{Map, Value, json, put};
use std::alloc::{AllocError, Global};

/// The part of a document.
pub fn span_value(
    alloc: Global,
    encoding: Encoding,
    document: &Document,
    span: Span,
) -> Result<Value, AllocError>
    ensures { IfOk result (λ value. view value ≡ span_json encoding document.now.text span) }
{
    let start = place_value(alloc, encoding, document, span.start)?;
    let end = place_value(alloc, encoding, document, end_of(span))?;
    range_value(alloc, start, end)
}

/// The place of a byte of a document.
pub fn place_value(
    alloc: Global,
    encoding: Encoding,
    document: &Document,
    place: usize,
) -> Result<Value, AllocError>
    ensures { IfOk result (λ value. view value ≡ place_json encoding document.now.text place) }
{
    position_value(alloc, document.position(encoding, place))
}

/// Where a part ends, which is never before its start.
pub fn end_of(span: Span) -> usize
    ensures { result ≡ end_of span }
{
    span.start.max(span.end)
}

/// Puts a text in.
pub fn put_text(
    members: &mut Map<String, Value>,
    alloc: Global,
    key: &str,
    text: &str,
) -> Result<(), AllocError>
    ensures { OnOk result (members_view members.new.entries ≡ with_member key.now (string text.now) (members_view members.old.entries)) }
{
    put(members, alloc, key, Value::try_from_str(alloc, text)?)
}

/// Puts the part of a document in, as `range`.
pub fn put_span(
    members: &mut Map<String, Value>,
    alloc: Global,
    encoding: Encoding,
    document: &Document,
    span: Span,
) -> Result<(), AllocError>
    ensures { OnOk result (members_view members.new.entries
        ≡ with_member (codes "range") (span_json encoding document.now.text span) (members_view members.old.entries)) }
{
    put(
        members,
        alloc,
        "range",
        span_value(alloc, encoding, document, span)?,
    )
}

fn position_value(alloc: Global, position: Position) -> Result<Value, AllocError>
    ensures { IfOk result (λ value. view value ≡ position_json position) }
{
    json!(in alloc; {"character": (position.character), "line": (position.line)})
}

fn range_value(alloc: Global, start: Value, end: Value) -> Result<Value, AllocError>
    ensures { IfOk result (λ value. view value ≡ range_json (view start) (view end)) }
{
    json!(in alloc; {"end": end, "start": start})
}
