// Messages that are written.
ghost use Rattle.std.specs.Prelude.{◌≡◌, false, IfOk, string_bytes, option_map};
ghost use Rattle.serde_json.specs.View.{view};
ghost use Rattle.serde_json.specs.Written.{has_float, compact_text};
ghost use Rattle.lsp_requests.specs.Answers.{id_json, any_id_json, result_json, error_json, fault_json, notification_json};
ghost use Rattle.lsp_requests.specs.Read.{id_view};

use crate::code::ErrorCode;
use crate::message::Id;
use serde_json::{Value, json};
use std::alloc::{AllocError, Global};

/// The answer to a request that has a result.
pub fn result_text(alloc: Global, id: &Id, outcome: Value) -> Result<String, AllocError>
    ensures { IfOk result (λ text. has_float (view outcome) ≡ false
        → string_bytes text ≡ compact_text (result_json (id_view id.now) (view outcome))) }
{
    result_value(alloc, id, outcome)?.to_string(alloc)
}

/// The answer to a request that has none, or to what is no request.
pub fn error_text(alloc: Global, id: Option<&Id>, code: ErrorCode) -> Result<String, AllocError>
    ensures { IfOk result (λ text. string_bytes text ≡ compact_text (error_json (option_map (λ id. id_view id.now) id.entry) code)) }
{
    error_value(alloc, id, code)?.to_string(alloc)
}

/// A notification of the server.
pub fn notification_text(alloc: Global, method: &str, params: Value) -> Result<String, AllocError>
    ensures { IfOk result (λ text. has_float (view params) ≡ false
        → string_bytes text ≡ compact_text (notification_json method.now (view params))) }
{
    notification_value(alloc, method, params)?.to_string(alloc)
}

fn result_value(alloc: Global, id: &Id, outcome: Value) -> Result<Value, AllocError>
    ensures { IfOk result (λ value. view value ≡ result_json (id_view id.now) (view outcome)) }
{
    let id = id_value(alloc, id)?;
    json!(in alloc; {"id": id, "jsonrpc": "2.0", "result": outcome})
}

fn error_value(alloc: Global, id: Option<&Id>, code: ErrorCode) -> Result<Value, AllocError>
    ensures { IfOk result (λ value. view value ≡ error_json (option_map (λ id. id_view id.now) id.entry) code) }
{
    let fault = fault_value(alloc, code)?;
    let id = any_id_value(alloc, id)?;
    json!(in alloc; {"error": fault, "id": id, "jsonrpc": "2.0"})
}

fn fault_value(alloc: Global, code: ErrorCode) -> Result<Value, AllocError>
    ensures { IfOk result (λ value. view value ≡ fault_json code) }
{
    json!(in alloc; {"code": (code.number()), "message": (code.message())})
}

fn notification_value(alloc: Global, method: &str, params: Value) -> Result<Value, AllocError>
    ensures { IfOk result (λ value. view value ≡ notification_json method.now (view params)) }
{
    json!(in alloc; {"jsonrpc": "2.0", "method": method, "params": params})
}

// The id of an answer, which is null where the request has none.
fn any_id_value(alloc: Global, id: Option<&Id>) -> Result<Value, AllocError>
    ensures { IfOk result (λ value. view value ≡ any_id_json (option_map (λ id. id_view id.now) id.entry)) }
{
    match id {
        Some(id) => id_value(alloc, id),
        None => Ok(Value::Null),
    }
}

fn id_value(alloc: Global, id: &Id) -> Result<Value, AllocError>
    ensures { IfOk result (λ value. view value ≡ id_json (id_view id.now)) }
{
    match id {
        Id::Number(number) => Ok(Value::from(*number)),
        Id::Text(text) => Value::try_from_str(alloc, text.as_str()),
    }
}
