// Changes that are offered.
ghost use Rattle.std.specs.Prelude.{◌≡◌, IfOk};
ghost use Rattle.serde_json.specs.View.{view};
ghost use Rattle.lsp_results.specs.Actions.{meets, edit_json, edits_json, workspace_json, action_json, actions_json};

use crate::place::{end_of, put_span, put_text};
use lsp_documents::Document;
use lsp_language::{Action, Edit};
use lsp_positions::Encoding;
use serde_json::{Map, Value, json, push, put};
use std::alloc::{AllocError, Global};

/// The actions whose part meets what stands between two places of a document.
pub fn actions_value(
    alloc: Global,
    encoding: Encoding,
    document: &Document,
    uri: &str,
    from: usize,
    to: usize,
    actions: &[Action],
) -> Result<Value, AllocError>
    ensures { IfOk result (λ value. view value ≡ actions_json encoding document.now.text uri.now from to actions.now) }
{
    let mut items = Vec::new(alloc);
    for action in actions {
        if meets(from, to, action) {
            push(
                &mut items,
                action_value(alloc, encoding, document, uri, action)?,
            )?;
        }
    }
    Ok(Value::Array(items))
}

fn meets(from: usize, to: usize, action: &Action) -> bool
    ensures { result ≡ meets from to action.now }
{
    action.span.start <= to && from <= end_of(action.span)
}

fn action_value(
    alloc: Global,
    encoding: Encoding,
    document: &Document,
    uri: &str,
    action: &Action,
) -> Result<Value, AllocError>
    ensures { IfOk result (λ value. view value ≡ action_json encoding document.now.text uri.now action.now) }
{
    let edits = edits_value(alloc, encoding, document, &action.edits)?;
    let mut members = Map::new(alloc);
    put(
        &mut members,
        alloc,
        "edit",
        workspace_value(alloc, uri, edits)?,
    )?;
    put_text(&mut members, alloc, "kind", "quickfix")?;
    put_text(&mut members, alloc, "title", action.title.as_str())?;
    Ok(Value::Object(members))
}

/// Edits of one document.
pub fn workspace_value(alloc: Global, uri: &str, edits: Value) -> Result<Value, AllocError>
    ensures { IfOk result (λ value. view value ≡ workspace_json uri.now (view edits)) }
{
    let changes = json!(in alloc; {(uri): edits})?;
    json!(in alloc; {"changes": changes})
}

fn edits_value(
    alloc: Global,
    encoding: Encoding,
    document: &Document,
    edits: &[Edit],
) -> Result<Value, AllocError>
    ensures { IfOk result (λ value. view value ≡ edits_json encoding document.now.text edits.now) }
{
    let mut items = Vec::new(alloc);
    for edit in edits {
        push(&mut items, edit_value(alloc, encoding, document, edit)?)?;
    }
    Ok(Value::Array(items))
}

fn edit_value(
    alloc: Global,
    encoding: Encoding,
    document: &Document,
    edit: &Edit,
) -> Result<Value, AllocError>
    ensures { IfOk result (λ value. view value ≡ edit_json encoding document.now.text edit.now) }
{
    let mut members = Map::new(alloc);
    put_text(&mut members, alloc, "newText", edit.text.as_str())?;
    put_span(&mut members, alloc, encoding, document, edit.span)?;
    Ok(Value::Object(members))
}
