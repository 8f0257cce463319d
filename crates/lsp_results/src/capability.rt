// What the server tells of itself.
ghost use Rattle.std.specs.Prelude.{◌≡◌, true, false, IfOk, OnOk};
ghost use Rattle.serde_json.specs.Data.{boolean, put as with_member};
ghost use Rattle.serde_json.specs.View.{view, members_view};
ghost use Rattle.serde_json.specs.Written.{has_float};
ghost use Rattle.lsp_results.specs.Capabilities.{encoding_name, sync_json, kinds_json, renames_json, capabilities_json, server_json, initialized_json};

use crate::place::put_text;
use lsp_positions::Encoding;
use serde_json::{Map, Value, json, put};
use std::alloc::{AllocError, Global};

/// The result of `initialize`, once this encoding is agreed on.
pub fn initialized_value(alloc: Global, encoding: Encoding) -> Result<Value, AllocError>
    ensures value { IfOk result (λ value. view value ≡ initialized_json encoding) }
    ensures plain { IfOk result (λ value. has_float (view value) ≡ false) }
{
    initialized(alloc, encoding)
}

fn initialized(alloc: Global, encoding: Encoding) -> Result<Value, AllocError>
    ensures { IfOk result (λ value. view value ≡ initialized_json encoding) }
{
    let capabilities = capabilities_value(alloc, encoding)?;
    let server = json!(in alloc; {"name": "explain"})?;
    json!(in alloc; {"capabilities": capabilities, "serverInfo": server})
}

fn capabilities_value(alloc: Global, encoding: Encoding) -> Result<Value, AllocError>
    ensures { IfOk result (λ value. view value ≡ capabilities_json encoding) }
{
    let mut members = Map::new(alloc);
    put(
        &mut members,
        alloc,
        "codeActionProvider",
        kinds_value(alloc)?,
    )?;
    put(
        &mut members,
        alloc,
        "codeLensProvider",
        Value::Object(Map::new(alloc)),
    )?;
    put_true(&mut members, alloc, "definitionProvider")?;
    put_true(&mut members, alloc, "documentHighlightProvider")?;
    put_true(&mut members, alloc, "documentSymbolProvider")?;
    put_true(&mut members, alloc, "foldingRangeProvider")?;
    put_true(&mut members, alloc, "hoverProvider")?;
    put_true(&mut members, alloc, "inlayHintProvider")?;
    put_text(
        &mut members,
        alloc,
        "positionEncoding",
        encoding_name(encoding),
    )?;
    put_true(&mut members, alloc, "referencesProvider")?;
    put(&mut members, alloc, "renameProvider", renames_value(alloc)?)?;
    put(&mut members, alloc, "textDocumentSync", sync_value(alloc)?)?;
    Ok(Value::Object(members))
}

fn put_true(members: &mut Map<String, Value>, alloc: Global, key: &str) -> Result<(), AllocError>
    ensures { OnOk result (members_view members.new.entries ≡ with_member key.now (boolean true) (members_view members.old.entries)) }
{
    put(members, alloc, key, Value::Bool(true))
}

fn kinds_value(alloc: Global) -> Result<Value, AllocError>
    ensures { IfOk result (λ value. view value ≡ kinds_json) }
{
    json!(in alloc; {"codeActionKinds": ["quickfix"]})
}

fn renames_value(alloc: Global) -> Result<Value, AllocError>
    ensures { IfOk result (λ value. view value ≡ renames_json) }
{
    json!(in alloc; {"prepareProvider": true})
}

fn sync_value(alloc: Global) -> Result<Value, AllocError>
    ensures { IfOk result (λ value. view value ≡ sync_json) }
{
    json!(in alloc; {"change": 2u32, "openClose": true})
}

fn encoding_name(encoding: Encoding) -> &'static str
    ensures { result.now ≡ encoding_name encoding }
{
    match encoding {
        Encoding::Utf16 => "utf-16",
        Encoding::Utf8 => "utf-8",
    }
}
