// All open documents.
ghost use Rattle.std.specs.Prelude.{◌≡◌, ◌<◌, ◌++◌, ℕ, List, Some, None, length, IfOk, OnOk, OnErr, IfSome, MatchOption, slice_get, false};
ghost use Rattle.std.specs.Prelude.{Ok};
ghost use Rattle.serde_json.specs.Data.{Data};
ghost use Rattle.serde_json.specs.View.{view};
ghost use Rattle.serde_json.specs.Written.{has_float};
ghost use Rattle.lsp_documents.specs.Changes.{replacements};
ghost use Rattle.lsp_server.specs.Documents.{is_of, is_unpublished, first_of, IsFirst, fresh, opened, changed, closed, MayLearn};
ghost use Rattle.lsp_server.specs.State.{Open};
ghost use Rattle.lsp_server.specs.Sent.{frames};
ghost use Rattle.lsp_server.specs.Notices.{emptied};
ghost use Rattle.lsp_server.specs.Protocol.{IsPublished};
ghost use Rattle.lsp_server.specs.Requests.{OfDocument, IsOfInsight, RenamedIn, answer_view, IsPlain};
ghost use Rattle.lsp_params.specs.Read.{new_name_view};

use crate::document::OpenDocument;
use crate::sending::send_published;
use lsp_documents::Change;
use lsp_language::Language;
use lsp_params::{Ask, NewName};
use lsp_positions::Encoding;
use lsp_requests::ErrorCode;
use lsp_results::emptied_value;
use serde_json::Value;
use std::alloc::{AllocError, Global};

/// The place of the document of this name.
#[tactic(auto, using(crate::proofs::Places::found_here, crate::proofs::Places::not_here, crate::proofs::Places::nowhere))]
pub fn place_of(documents: &[OpenDocument], uri: &str) -> Option<usize>
    ensures first { MatchOption result (first_of (is_of uri.now) documents.now ≡ None) (IsFirst (is_of uri.now) documents.now) }
    ensures within { IfSome result (λ place. place < length documents.now) }
{
    for place in 0..documents.len() {
        if documents[place].is_of(uri) {
            return Some(place);
        }
    }
    None
}

/// The place of the first document whose diagnostics are not published yet.
#[tactic(auto, using(crate::proofs::Places::found_here, crate::proofs::Places::not_here, crate::proofs::Places::nowhere))]
pub fn unpublished(documents: &[OpenDocument]) -> Option<usize>
    ensures first { MatchOption result (first_of is_unpublished documents.now ≡ None) (IsFirst is_unpublished documents.now) }
    ensures within { IfSome result (λ place. place < length documents.now) }
{
    for place in 0..documents.len() {
        if documents[place].is_unpublished() {
            return Some(place);
        }
    }
    None
}

/// What is answered where this is asked of a document, which is known then.
#[tactic(auto, using(crate::proofs::Kept::of_first))]
pub fn text_answer<L: Language>(
    documents: &mut Vec<OpenDocument>,
    alloc: Global,
    language: &L,
    encoding: Encoding,
    uri: &str,
    ask: Ask,
) -> Result<Result<Value, ErrorCode>, AllocError>
    ensures answers { IfOk result (λ answer. OfDocument (L.tells language.now) encoding documents.old.items documents.new.items
        (first_of (is_of uri.now) documents.old.items) ask (answer_view answer)) }
    ensures plain { IfOk result (λ answer. IsPlain (answer_view answer)) }
    ensures kept { MayLearn (L.tells language.now) documents.old.items documents.new.items }
{
    match place_of(documents.as_slice(), uri) {
        Some(place) => {
            let value = answer_at(documents, place, alloc, language, encoding, ask)?;
            Ok(Ok(value))
        }
        None => Ok(Err(ErrorCode::InvalidParams)),
    }
}

#[tactic(auto, using(crate::proofs::Kept::is_read, crate::proofs::Kept::learns))]
fn answer_at<L: Language>(
    documents: &mut Vec<OpenDocument>,
    place: usize,
    alloc: Global,
    language: &L,
    encoding: Encoding,
    ask: Ask,
) -> Result<Value, AllocError>
    requires { place < length documents.old.items }
    ensures answers { (document : Open) → slice_get documents.old.items place ≡ Some document → IfOk result (λ value.
        IsOfInsight (L.tells language.now) encoding documents.old.items documents.new.items (place, document) ask (Ok (view value))) }
    ensures plain { IfOk result (λ value. has_float (view value) ≡ false) }
    ensures kept { MayLearn (L.tells language.now) documents.old.items documents.new.items }
{
    documents[place].learn(alloc, language)?;
    documents[place].result(alloc, language, encoding, ask)
}

/// What is answered where another name is wanted for what stands in a document.
#[tactic(auto, using(crate::proofs::Kept::renamed_first, crate::proofs::Kept::is_read))]
pub fn rename_answer<L: Language>(
    documents: &[OpenDocument],
    alloc: Global,
    language: &L,
    encoding: Encoding,
    wanted: NewName<'_>,
) -> Result<Result<Value, ErrorCode>, AllocError>
    ensures answers { IfOk result (λ answer. RenamedIn (L.tells language.now) encoding
        (first_of (is_of wanted.entry.uri.now) documents.now) (new_name_view wanted.entry) (answer_view answer)) }
    ensures plain { IfOk result (λ answer. IsPlain (answer_view answer)) }
{
    match place_of(documents, wanted.uri) {
        Some(place) => {
            let document = &documents[place];
            document.renamed(alloc, language, encoding, wanted.position, wanted.name)
        }
        None => Ok(Err(ErrorCode::InvalidParams)),
    }
}

/// Opens a document, in the place of one that is open by its name.
#[tactic(auto, using(crate::proofs::Kept::opened_none, crate::proofs::Kept::opened_there))]
pub fn open_document(
    documents: &mut Vec<OpenDocument>,
    alloc: Global,
    uri: &str,
    version: i64,
    text: &str,
) -> Result<(), AllocError>
    ensures opened { OnOk result (documents.new.items ≡ opened documents.old.items (fresh uri.now version text.now)) }
    ensures kept { OnErr result (documents.new.items ≡ documents.old.items) }
{
    let document = OpenDocument::new(alloc, uri, version, text)?;
    match place_of(documents.as_slice(), uri) {
        Some(place) => {
            documents[place] = document;
            Ok(())
        }
        None => Ok(documents.push(document)?),
    }
}

/// Changes a document, where it is open.
#[tactic(auto, using(crate::proofs::Kept::changed_none, crate::proofs::Kept::changed_there))]
pub fn change_document(
    documents: &mut Vec<OpenDocument>,
    alloc: Global,
    encoding: Encoding,
    uri: &str,
    version: i64,
    changes: &[Change],
) -> Result<(), AllocError>
    ensures changed { OnOk result (documents.new.items ≡ changed encoding documents.old.items uri.now version (replacements changes.now)) }
    ensures kept { OnErr result (documents.new.items ≡ documents.old.items) }
{
    match place_of(documents.as_slice(), uri) {
        Some(place) => documents[place].change(alloc, encoding, version, changes),
        None => Ok(()),
    }
}

/// Closes a document, where it is open, and publishes that nothing is left of its diagnostics.
#[tactic(auto, using(crate::proofs::Kept::closed_none, crate::proofs::Kept::closed_there, crate::proofs::Taken::one_sent, crate::proofs::Taken::none_sent))]
pub fn close_document(
    documents: &mut Vec<OpenDocument>,
    alloc: Global,
    uri: &str,
    out: &mut Vec<u8>,
) -> Result<(), AllocError>
    ensures closed { OnOk result (documents.new.items ≡ closed documents.old.items uri.now) }
    ensures sent { OnOk result (out.new.items ≡ out.old.items ++ frames (emptied uri.now (first_of (is_of uri.now) documents.old.items))) }
    ensures kept { OnErr result (documents.new.items ≡ documents.old.items) }
    ensures unsent { OnErr result (out.new.items ≡ out.old.items) }
{
    if let Some(place) = place_of(documents.as_slice(), uri) {
        send_published(alloc, emptied_value(alloc, uri)?, out)?;
        documents.remove(place);
    }
    Ok(())
}

/// Publishes the diagnostics of a document, which is known then.
#[tactic(auto, using(crate::proofs::Kept::is_read, crate::proofs::Kept::learns, crate::proofs::Taken::one_sent))]
pub fn publish_at<L: Language>(
    documents: &mut Vec<OpenDocument>,
    place: usize,
    alloc: Global,
    language: &L,
    encoding: Encoding,
    out: &mut Vec<u8>,
) -> Result<(), AllocError>
    requires { place < length documents.old.items }
    ensures published { (document : Open) → slice_get documents.old.items place ≡ Some document → OnOk result ((sent : List Data)
        × IsPublished (L.tells language.now) encoding documents.old.items documents.new.items (place, document) sent
        × (out.new.items ≡ out.old.items ++ frames sent)) }
    ensures kept { OnErr result (MayLearn (L.tells language.now) documents.old.items documents.new.items) }
    ensures unsent { OnErr result (out.new.items ≡ out.old.items) }
{
    documents[place].learn(alloc, language)?;
    let params = documents[place].publication(alloc, encoding)?;
    send_published(alloc, params, out)?;
    documents[place].mark_published();
    Ok(())
}
