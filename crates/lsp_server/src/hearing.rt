// Notifications that are heard.
ghost use Rattle.std.specs.Prelude.{◌≡◌, ◌++◌, OnOk, OnErr, option_map, option_and_then};
ghost use Rattle.serde_json.specs.View.{view};
ghost use Rattle.lsp_params.specs.Asks.{uri_of};
ghost use Rattle.lsp_params.specs.Opened.{opening_of, versioned_of, changes_of};
ghost use Rattle.lsp_server.specs.Notices.{heard_in, sent_in, documents_after, opened_by, changed_by, closed_by, emptied_by, sent_by};
ghost use Rattle.lsp_server.specs.Sent.{frames};

use crate::document::OpenDocument;
use crate::documents::{change_document, close_document, open_document};
use crate::life::Life;
use crate::method::Notice;
use lsp_params::{changes_of, opening_of, uri_of, versioned_of};
use lsp_positions::Encoding;
use serde_json::Value;
use std::alloc::{AllocError, Global};

/// Opens, changes or closes a document, while the server runs. Params that do not say it are passed over.
#[tactic(auto, using(crate::proofs::Taken::none_sent))]
pub fn hear(
    documents: &mut Vec<OpenDocument>,
    alloc: Global,
    life: Life,
    encoding: Encoding,
    notice: Notice,
    params: Option<&Value>,
    out: &mut Vec<u8>,
) -> Result<(), AllocError>
    ensures heard { OnOk result (documents.new.items
        ≡ heard_in life encoding documents.old.items notice (option_map (λ params. view params.now) params.entry)) }
    ensures sent { OnOk result (out.new.items
        ≡ out.old.items ++ frames (sent_in life documents.old.items notice (option_map (λ params. view params.now) params.entry))) }
    ensures kept { OnErr result (documents.new.items ≡ documents.old.items) }
    ensures unsent { OnErr result (out.new.items ≡ out.old.items) }
{
    match life {
        Life::Running => hear_running(documents, alloc, encoding, notice, params, out),
        Life::Fresh | Life::ShutDown => Ok(()),
    }
}

#[tactic(auto, using(crate::proofs::Taken::none_sent))]
fn hear_running(
    documents: &mut Vec<OpenDocument>,
    alloc: Global,
    encoding: Encoding,
    notice: Notice,
    params: Option<&Value>,
    out: &mut Vec<u8>,
) -> Result<(), AllocError>
    ensures heard { OnOk result (documents.new.items
        ≡ documents_after encoding documents.old.items notice (option_map (λ params. view params.now) params.entry)) }
    ensures sent { OnOk result (out.new.items
        ≡ out.old.items ++ frames (sent_by documents.old.items notice (option_map (λ params. view params.now) params.entry))) }
    ensures kept { OnErr result (documents.new.items ≡ documents.old.items) }
    ensures unsent { OnErr result (out.new.items ≡ out.old.items) }
{
    match notice {
        Notice::Open => hear_open(documents, alloc, params),
        Notice::Change => hear_change(documents, alloc, encoding, params),
        Notice::Close => hear_close(documents, alloc, params, out),
        Notice::Exit => Ok(()),
        Notice::Other => Ok(()),
    }
}

fn hear_open(
    documents: &mut Vec<OpenDocument>,
    alloc: Global,
    params: Option<&Value>,
) -> Result<(), AllocError>
    ensures heard { OnOk result (documents.new.items
        ≡ opened_by documents.old.items (option_and_then opening_of (option_map (λ params. view params.now) params.entry))) }
    ensures kept { OnErr result (documents.new.items ≡ documents.old.items) }
{
    let Some(params) = params else {
        return Ok(());
    };
    match opening_of(params) {
        Some(o) => open_document(documents, alloc, o.uri, o.version, o.text),
        None => Ok(()),
    }
}

fn hear_change(
    documents: &mut Vec<OpenDocument>,
    alloc: Global,
    encoding: Encoding,
    params: Option<&Value>,
) -> Result<(), AllocError>
    ensures heard { OnOk result (documents.new.items ≡ changed_by encoding documents.old.items
        (option_and_then versioned_of (option_map (λ params. view params.now) params.entry))
        (option_and_then changes_of (option_map (λ params. view params.now) params.entry))) }
    ensures kept { OnErr result (documents.new.items ≡ documents.old.items) }
{
    let Some(params) = params else {
        return Ok(());
    };
    let Some((uri, version)) = versioned_of(params) else {
        return Ok(());
    };
    match changes_of(alloc, params)? {
        Some(changes) => change_document(documents, alloc, encoding, uri, version, &changes),
        None => Ok(()),
    }
}

#[tactic(auto, using(crate::proofs::Taken::none_sent))]
fn hear_close(
    documents: &mut Vec<OpenDocument>,
    alloc: Global,
    params: Option<&Value>,
    out: &mut Vec<u8>,
) -> Result<(), AllocError>
    ensures heard { OnOk result (documents.new.items
        ≡ closed_by documents.old.items (option_and_then uri_of (option_map (λ params. view params.now) params.entry))) }
    ensures sent { OnOk result (out.new.items
        ≡ out.old.items ++ frames
        (emptied_by documents.old.items (option_and_then uri_of (option_map (λ params. view params.now) params.entry)))) }
    ensures kept { OnErr result (documents.new.items ≡ documents.old.items) }
    ensures unsent { OnErr result (out.new.items ≡ out.old.items) }
{
    let Some(params) = params else {
        return Ok(());
    };
    match uri_of(params) {
        Some(uri) => close_document(documents, alloc, uri, out),
        None => Ok(()),
    }
}
