// Documents that a client opens, changes and closes.
ghost use Rattle.std.specs.Prelude.{◌≡◌, map, IfOk, option_map};
ghost use Rattle.serde_json.specs.View.{view};
ghost use Rattle.lsp_documents.specs.Changes.{replacement, replacements};
ghost use Rattle.lsp_params.specs.Json.{each};
ghost use Rattle.lsp_params.specs.Opened.{opening_in, opening_of, any_range, change_of, changes_of, versioned_in, versioned_of};
ghost use Rattle.lsp_params.specs.Read.{opening_view, versioned_view};

use crate::json::{integer_in, list_in, range_of, text_in};
use lsp_documents::{Change, Range};
use serde_json::Value;
use std::alloc::{AllocError, Global};

/// A text that is opened.
#[derive(Clone, Copy, Debug)]
pub struct Opening<'a> {
    pub uri: &'a str,
    pub version: i64,
    pub text: &'a str,
}

/// The text that is opened, and `None` where the params do not say it.
pub fn opening_of(params: &Value) -> Option<Opening<'_>>
    ensures { option_map opening_view result ≡ opening_of (view params.now) }
{
    opening_in(params.get("textDocument")?)
}

fn opening_in(document: &Value) -> Option<Opening<'_>>
    ensures { option_map opening_view result ≡ opening_in (view document.now) }
{
    let uri = text_in(document, "uri")?;
    let version = integer_in(document, "version")?;
    let text = text_in(document, "text")?;
    Some(Opening { uri, version, text })
}

/// The document that is changed, and its version then.
pub fn versioned_of(params: &Value) -> Option<(&str, i64)>
    ensures { option_map versioned_view result ≡ versioned_of (view params.now) }
{
    versioned_in(params.get("textDocument")?)
}

fn versioned_in(document: &Value) -> Option<(&str, i64)>
    ensures { option_map versioned_view result ≡ versioned_in (view document.now) }
{
    let uri = text_in(document, "uri")?;
    let version = integer_in(document, "version")?;
    Some((uri, version))
}

/// The changes of a document, and `None` where the params do not say them.
pub fn changes_of(alloc: Global, params: &Value) -> Result<Option<Vec<Change>>, AllocError>
    ensures { IfOk result (λ o. option_map (λ changes. replacements changes.items) o ≡ changes_of (view params.now)) }
{
    match list_in(params, "contentChanges") {
        Some(items) => each_change(alloc, items),
        None => Ok(None),
    }
}

fn each_change(alloc: Global, items: &[Value]) -> Result<Option<Vec<Change>>, AllocError>
    ensures { IfOk result (λ o. option_map (λ changes. replacements changes.items) o ≡ each change_of (map view items.now)) }
{
    let mut changes = Vec::new(alloc);
    for item in items {
        match change_of(alloc, item)? {
            Some(change) => changes.push(change)?,
            None => return Ok(None),
        }
    }
    Ok(Some(changes))
}

fn change_of(alloc: Global, value: &Value) -> Result<Option<Change>, AllocError>
    ensures { IfOk result (λ o. option_map replacement o ≡ change_of (view value.now)) }
{
    match any_range(value.get("range")) {
        Some(range) => change_in(alloc, range, text_in(value, "text")),
        None => Ok(None),
    }
}

fn change_in(
    alloc: Global,
    range: Option<Range>,
    text: Option<&str>,
) -> Result<Option<Change>, AllocError>
    ensures { IfOk result (λ o. option_map replacement o ≡ option_map (λ text. record { range = range; text = text.now }) text.entry) }
{
    match text {
        Some(text) => Ok(Some(Change {
            range,
            text: String::from_str(alloc, text)?,
        })),
        None => Ok(None),
    }
}

// The range, where one is told, and `None` where it is none.
fn any_range(value: Option<&Value>) -> Option<Option<Range>>
    ensures { result ≡ any_range (option_map (λ d. view d.now) value.entry) }
{
    match value {
        Some(value) => Some(Some(range_of(value)?)),
        None => Some(None),
    }
}
