// Messages that are sent.
ghost use Rattle.std.specs.Prelude.{◌≡◌, ◌++◌, None, string_bytes, false, IfOk, OnOk, OnErr};
ghost use Rattle.serde_json.specs.View.{view};
ghost use Rattle.serde_json.specs.Written.{has_float, compact_text};
ghost use Rattle.lsp_frames.specs.Frames.{frame};
ghost use Rattle.lsp_requests.specs.Answers.{error_json};
ghost use Rattle.lsp_requests.specs.Read.{id_view};
ghost use Rattle.lsp_server.specs.Requests.{response, answer_view, IsPlain};
ghost use Rattle.lsp_server.specs.Notices.{publish};

use lsp_frames::push_frame;
use lsp_requests::{ErrorCode, Id, error_text, notification_text, result_text};
use serde_json::Value;
use std::alloc::{AllocError, Global};

/// Sends the response to a request.
pub fn send_response(
    alloc: Global,
    id: &Id,
    answer: Result<Value, ErrorCode>,
    out: &mut Vec<u8>,
) -> Result<(), AllocError>
    requires { IsPlain (answer_view answer) }
    ensures sent { OnOk result (out.new.items ≡ out.old.items ++ frame (compact_text (response (id_view id.now) (answer_view answer)))) }
    ensures kept { OnErr result (out.new.items ≡ out.old.items) }
{
    let text = response_text(alloc, id, answer)?;
    push_frame(out, text.as_bytes())
}

fn response_text(
    alloc: Global,
    id: &Id,
    answer: Result<Value, ErrorCode>,
) -> Result<String, AllocError>
    requires { IsPlain (answer_view answer) }
    ensures { IfOk result (λ text. string_bytes text ≡ compact_text (response (id_view id.now) (answer_view answer))) }
{
    match answer {
        Ok(value) => result_text(alloc, id, value),
        Err(code) => error_text(alloc, Some(id), code),
    }
}

/// Sends an error that belongs to no request.
pub fn send_error(alloc: Global, code: ErrorCode, out: &mut Vec<u8>) -> Result<(), AllocError>
    ensures sent { OnOk result (out.new.items ≡ out.old.items ++ frame (compact_text (error_json None code))) }
    ensures kept { OnErr result (out.new.items ≡ out.old.items) }
{
    let text = error_text(alloc, None, code)?;
    push_frame(out, text.as_bytes())
}

/// Publishes diagnostics.
pub fn send_published(alloc: Global, params: Value, out: &mut Vec<u8>) -> Result<(), AllocError>
    requires { has_float (view params) ≡ false }
    ensures sent { OnOk result (out.new.items ≡ out.old.items ++ frame (compact_text (publish (view params)))) }
    ensures kept { OnErr result (out.new.items ≡ out.old.items) }
{
    let text = notification_text(alloc, "textDocument/publishDiagnostics", params)?;
    push_frame(out, text.as_bytes())
}
