// Messages that are read.
ghost use Rattle.std.specs.Prelude.{◌≡◌, codes, string_bytes, None, IfOk, option_map, option_and_then};
ghost use Rattle.serde_json.specs.Data.{null};
ghost use Rattle.serde_json.specs.Find.{as_str, as_number, as_i64};
ghost use Rattle.serde_json.specs.View.{view};
ghost use Rattle.serde_json.specs.Errors.{IsMemory};
ghost use Rattle.lsp_requests.specs.Kinds.{Malformed, id_by, id_of, request_by, named_by, kind_by, is_text, is_version, kind_of};
ghost use Rattle.lsp_requests.specs.Read.{id_view, kind_view, IsMessage};

use crate::code::ErrorCode;
use crate::message::{Id, Kind, Message};
use serde_json::{Category, Error, Value};
use std::alloc::{AllocError, Global};

/// The message that the content of a frame is.
pub fn read_message(alloc: Global, content: &[u8]) -> Result<Message, AllocError>
    ensures { IfOk result (IsMessage content.now) }
{
    match Value::from_slice(alloc, content) {
        Ok(value) => {
            let kind = kind_of(alloc, &value)?;
            Ok(Message { kind, value })
        }
        Err(error) => unread(&error),
    }
}

// The message, where the content is no JSON.
fn unread(error: &Error) -> Result<Message, AllocError>
    ensures { IfOk result (λ message. (IsMemory error.now → ⊥)
        × (kind_view message.kind ≡ Malformed ErrorCode.ParseError) × (view message.value ≡ null)) }
{
    match error.classify() {
        Category::Memory => Err(AllocError),
        _ => Ok(Message {
            kind: Kind::Malformed(ErrorCode::ParseError),
            value: Value::Null,
        }),
    }
}

// What a value is.
fn kind_of(alloc: Global, value: &Value) -> Result<Kind, AllocError>
    ensures { IfOk result (λ kind. kind_view kind ≡ kind_of (view value.now)) }
{
    if !is_version(value) {
        return Ok(Kind::Malformed(ErrorCode::InvalidRequest));
    }
    match value.get("method") {
        Some(method) => named(alloc, method, value.get("id")),
        None => unnamed(alloc, value.get("id")),
    }
}

// Whether the member `jsonrpc` is "2.0".
fn is_version(value: &Value) -> bool
    ensures { result ≡ is_version (view value.now) }
{
    match value.get("jsonrpc") {
        Some(version) => is_two(version),
        None => false,
    }
}

// Whether the value is the text "2.0".
fn is_two(version: &Value) -> bool
    ensures { result ≡ is_text (codes "2.0") (as_str (view version.now)) }
{
    match version.as_str() {
        Some(text) => text == "2.0",
        None => false,
    }
}

// What a value without a method is.
fn unnamed(alloc: Global, id: Option<&Value>) -> Result<Kind, AllocError>
    ensures { IfOk result (λ kind. kind_view kind ≡ kind_by None (option_map (λ id. view id.now) id.entry)) }
{
    match id {
        Some(id) => Ok(Kind::Response(id_of(alloc, id)?)),
        None => Ok(Kind::Malformed(ErrorCode::InvalidRequest)),
    }
}

// What a value with a method is.
fn named(alloc: Global, method: &Value, id: Option<&Value>) -> Result<Kind, AllocError>
    ensures { IfOk result (λ kind. kind_view kind ≡ named_by (as_str (view method.now)) (option_map (λ id. view id.now) id.entry)) }
{
    let Some(name) = method.as_str() else {
        return Ok(Kind::Malformed(ErrorCode::InvalidRequest));
    };
    let name = String::from_str(alloc, name)?;
    match id {
        Some(id) => request(alloc, name, id),
        None => Ok(Kind::Notification(name)),
    }
}

// A request, where the id is one.
fn request(alloc: Global, method: String, id: &Value) -> Result<Kind, AllocError>
    ensures { IfOk result (λ kind. kind_view kind ≡ request_by (string_bytes method) (id_of (view id.now))) }
{
    match id_of(alloc, id)? {
        Some(id) => Ok(Kind::Request(id, method)),
        None => Ok(Kind::Malformed(ErrorCode::InvalidRequest)),
    }
}

// The id that a value is.
fn id_of(alloc: Global, value: &Value) -> Result<Option<Id>, AllocError>
    ensures { IfOk result (λ id. option_map id_view id ≡ id_of (view value.now)) }
{
    match value.as_str() {
        Some(text) => Ok(Some(Id::Text(String::from_str(alloc, text)?))),
        None => Ok(number_id(value)),
    }
}

// The id that a number is.
fn number_id(value: &Value) -> Option<Id>
    ensures { option_map id_view result ≡ id_by None (option_and_then as_i64 (as_number (view value.now))) }
{
    match value.as_i64() {
        Some(number) => Some(Id::Number(number)),
        None => None,
    }
}
