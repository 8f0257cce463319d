// What is shown above a line and inside of one.
ghost use Rattle.std.specs.Prelude.{◌≡◌, IfOk};
ghost use Rattle.serde_json.specs.View.{view};
ghost use Rattle.lsp_results.specs.Marks.{title_json, lens_json, lenses_json, is_between, hint_json, hints_json};

use crate::place::{place_value, put_span};
use lsp_documents::Document;
use lsp_language::{Hint, Lens};
use lsp_positions::Encoding;
use serde_json::{Map, Value, json, push, put};
use std::alloc::{AllocError, Global};

/// All lenses of a document.
pub fn lenses_value(
    alloc: Global,
    encoding: Encoding,
    document: &Document,
    lenses: &[Lens],
) -> Result<Value, AllocError>
    ensures { IfOk result (λ value. view value ≡ lenses_json encoding document.now.text lenses.now) }
{
    let mut items = Vec::new(alloc);
    for lens in lenses {
        push(&mut items, lens_value(alloc, encoding, document, lens)?)?;
    }
    Ok(Value::Array(items))
}

fn lens_value(
    alloc: Global,
    encoding: Encoding,
    document: &Document,
    lens: &Lens,
) -> Result<Value, AllocError>
    ensures { IfOk result (λ value. view value ≡ lens_json encoding document.now.text lens.now) }
{
    let mut members = Map::new(alloc);
    put(
        &mut members,
        alloc,
        "command",
        title_value(alloc, lens.title.as_str())?,
    )?;
    put_span(&mut members, alloc, encoding, document, lens.span)?;
    Ok(Value::Object(members))
}

fn title_value(alloc: Global, title: &str) -> Result<Value, AllocError>
    ensures { IfOk result (λ value. view value ≡ title_json title.now) }
{
    json!(in alloc; {"command": "", "title": title})
}

/// The hints of a document that stand between two places.
pub fn hints_value(
    alloc: Global,
    encoding: Encoding,
    document: &Document,
    from: usize,
    to: usize,
    hints: &[Hint],
) -> Result<Value, AllocError>
    ensures { IfOk result (λ value. view value ≡ hints_json encoding document.now.text from to hints.now) }
{
    let mut items = Vec::new(alloc);
    for hint in hints {
        if is_between(from, to, hint) {
            push(&mut items, hint_value(alloc, encoding, document, hint)?)?;
        }
    }
    Ok(Value::Array(items))
}

fn is_between(from: usize, to: usize, hint: &Hint) -> bool
    ensures { result ≡ is_between from to hint.now }
{
    from <= hint.offset && hint.offset <= to
}

fn hint_value(
    alloc: Global,
    encoding: Encoding,
    document: &Document,
    hint: &Hint,
) -> Result<Value, AllocError>
    ensures { IfOk result (λ value. view value ≡ hint_json encoding document.now.text hint.now) }
{
    let position = place_value(alloc, encoding, document, hint.offset)?;
    json!(in alloc; {"label": (hint.label.as_str()), "position": position})
}
