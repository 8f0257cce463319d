// Results of requests on a document.
ghost use Rattle.std.specs.Prelude.{◌≡◌, false, IfOk};
ghost use Rattle.serde_json.specs.View.{view};
ghost use Rattle.serde_json.specs.Written.{has_float};
ghost use Rattle.lsp_results.specs.Results.{IsResult};

use crate::action::actions_value;
use crate::hover::hover_at;
use crate::mark::{hints_value, lenses_value};
use crate::names::names_value;
use lsp_documents::Document;
use lsp_language::{Insight, Language};
use lsp_params::Ask;
use lsp_positions::Encoding;
use serde_json::Value;
use std::alloc::{AllocError, Global};

/// What is answered where this is asked of a document, by what is known of it, and by what the language tells at a place where that has
/// no hover, and of the names of its text.
pub fn result_value<L: Language>(
    alloc: Global,
    language: &L,
    encoding: Encoding,
    document: &Document,
    uri: &str,
    insight: &Insight,
    ask: Ask,
) -> Result<Value, AllocError>
    ensures value { IfOk result (λ value. IsResult (L.tells language.now) encoding document.now.text uri.now insight.now ask (view value)) }
    ensures plain { IfOk result (λ value. has_float (view value) ≡ false) }
{
    value_of(alloc, language, encoding, document, uri, insight, ask)
}

fn value_of<L: Language>(
    alloc: Global,
    language: &L,
    encoding: Encoding,
    document: &Document,
    uri: &str,
    insight: &Insight,
    ask: Ask,
) -> Result<Value, AllocError>
    ensures { IfOk result (λ value. IsResult (L.tells language.now) encoding document.now.text uri.now insight.now ask (view value)) }
{
    match ask {
        Ask::Hover(position) => {
            let place = document.offset(encoding, position);
            hover_at(alloc, language, encoding, document, place, &insight.hovers)
        }
        Ask::Lenses => lenses_value(alloc, encoding, document, &insight.lenses),
        Ask::Hints(range) => {
            let from = document.offset(encoding, range.start);
            let to = document.offset(encoding, range.end);
            hints_value(alloc, encoding, document, from, to, &insight.hints)
        }
        Ask::Actions(range) => {
            let from = document.offset(encoding, range.start);
            let to = document.offset(encoding, range.end);
            actions_value(alloc, encoding, document, uri, from, to, &insight.actions)
        }
        Ask::Names(asked) => names_value(alloc, language, encoding, document, uri, asked),
    }
}
