// Answers to requests.
ghost use Rattle.std.specs.Prelude.{◌≡◌, IfOk, option_map, option_and_then};
ghost use Rattle.serde_json.specs.View.{view};
ghost use Rattle.lsp_params.specs.Asks.{asked_of, new_name_of};
ghost use Rattle.lsp_params.specs.Read.{new_name_view};
ghost use Rattle.lsp_server.specs.Documents.{MayLearn};
ghost use Rattle.lsp_server.specs.Requests.{Answers, OfNewName, OfRunning, OfText, fresh_answer, answer_view, IsPlain};

use crate::document::OpenDocument;
use crate::documents::{rename_answer, text_answer};
use crate::life::Life;
use crate::method::Method;
use lsp_language::Language;
use lsp_params::{Ask, NewName, Subject, agreed, ask_of, new_name_of, uri_of};
use lsp_positions::Encoding;
use lsp_requests::ErrorCode;
use lsp_results::initialized_value;
use serde_json::Value;
use std::alloc::{AllocError, Global};

/// The answer to a request: a result, or the code of an error. A document of which it asks is known then.
pub fn answer<L: Language>(
    documents: &mut Vec<OpenDocument>,
    alloc: Global,
    language: &L,
    life: Life,
    encoding: Encoding,
    method: Method,
    params: Option<&Value>,
) -> Result<Result<Value, ErrorCode>, AllocError>
    ensures answers { IfOk result (λ answer. Answers (L.tells language.now) life encoding documents.old.items documents.new.items method
        (option_map (λ params. view params.now) params.entry) (answer_view answer)) }
    ensures plain { IfOk result (λ answer. IsPlain (answer_view answer)) }
    ensures kept { MayLearn (L.tells language.now) documents.old.items documents.new.items }
{
    match life {
        Life::Fresh => fresh_answer(alloc, method, params),
        Life::Running => running_answer(documents, alloc, language, encoding, method, params),
        Life::ShutDown => Ok(Err(ErrorCode::InvalidRequest)),
    }
}

// The answer before the server runs.
fn fresh_answer(
    alloc: Global,
    method: Method,
    params: Option<&Value>,
) -> Result<Result<Value, ErrorCode>, AllocError>
    ensures answers { IfOk result
        (λ answer. answer_view answer ≡ fresh_answer method (option_map (λ params. view params.now) params.entry)) }
    ensures plain { IfOk result (λ answer. IsPlain (answer_view answer)) }
{
    match method {
        Method::Initialize => Ok(Ok(initialized_value(alloc, agreed(params))?)),
        Method::Shutdown | Method::About(_) | Method::Rename | Method::Unknown => {
            Ok(Err(ErrorCode::NotInitialized))
        }
    }
}

// The answer while the server runs.
fn running_answer<L: Language>(
    documents: &mut Vec<OpenDocument>,
    alloc: Global,
    language: &L,
    encoding: Encoding,
    method: Method,
    params: Option<&Value>,
) -> Result<Result<Value, ErrorCode>, AllocError>
    ensures answers { IfOk result (λ answer. OfRunning (L.tells language.now) encoding documents.old.items documents.new.items method
        (option_map (λ params. view params.now) params.entry) (answer_view answer)) }
    ensures plain { IfOk result (λ answer. IsPlain (answer_view answer)) }
    ensures kept { MayLearn (L.tells language.now) documents.old.items documents.new.items }
{
    match method {
        Method::Initialize => Ok(Err(ErrorCode::InvalidRequest)),
        Method::Shutdown => Ok(Ok(Value::Null)),
        Method::About(subject) => about(documents, alloc, language, encoding, subject, params),
        Method::Rename => rename(documents.as_slice(), alloc, language, encoding, params),
        Method::Unknown => Ok(Err(ErrorCode::MethodNotFound)),
    }
}

// The answer to a request on a text.
fn about<L: Language>(
    documents: &mut Vec<OpenDocument>,
    alloc: Global,
    language: &L,
    encoding: Encoding,
    subject: Subject,
    params: Option<&Value>,
) -> Result<Result<Value, ErrorCode>, AllocError>
    ensures answers { IfOk result (λ answer. OfText (L.tells language.now) encoding documents.old.items documents.new.items
        (option_and_then (asked_of subject) (option_map (λ params. view params.now) params.entry)) (answer_view answer)) }
    ensures plain { IfOk result (λ answer. IsPlain (answer_view answer)) }
    ensures kept { MayLearn (L.tells language.now) documents.old.items documents.new.items }
{
    match asked(subject, params) {
        Some((uri, ask)) => text_answer(documents, alloc, language, encoding, uri, ask),
        None => Ok(Err(ErrorCode::InvalidParams)),
    }
}

// The document that is asked of, and what is asked.
fn asked<'a>(subject: Subject, params: Option<&'a Value>) -> Option<(&'a str, Ask)>
    ensures { option_map (λ asked. (asked.0.now, asked.1)) result
        ≡ option_and_then (asked_of subject) (option_map (λ params. view params.now) params.entry) }
{
    let params = params?;
    let uri = uri_of(params)?;
    let ask = ask_of(subject, params)?;
    Some((uri, ask))
}

// The answer where another name is wanted.
fn rename<L: Language>(
    documents: &[OpenDocument],
    alloc: Global,
    language: &L,
    encoding: Encoding,
    params: Option<&Value>,
) -> Result<Result<Value, ErrorCode>, AllocError>
    ensures answers { IfOk result (λ answer. OfNewName (L.tells language.now) encoding documents.now
        (option_and_then new_name_of (option_map (λ params. view params.now) params.entry)) (answer_view answer)) }
    ensures plain { IfOk result (λ answer. IsPlain (answer_view answer)) }
{
    match wanted(params) {
        Some(wanted) => rename_answer(documents, alloc, language, encoding, wanted),
        None => Ok(Err(ErrorCode::InvalidParams)),
    }
}

// The name that is wanted.
fn wanted(params: Option<&Value>) -> Option<NewName<'_>>
    ensures { option_map new_name_view result ≡ option_and_then new_name_of (option_map (λ params. view params.now) params.entry) }
{
    new_name_of(params?)
}
