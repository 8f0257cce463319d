// An open document, and what is known of it.
ghost use Rattle.std.specs.Prelude.{◌≡◌, Some, None, ℕ, List, IfOk, OnOk, OnErr, IsSome, false, true};
ghost use Rattle.serde_json.specs.View.{view};
ghost use Rattle.serde_json.specs.Written.{has_float};
ghost use Rattle.lsp_documents.specs.Changes.{all_changed, replacements};
ghost use Rattle.lsp_language.specs.declared.insight.Insight.{Insight};
ghost use Rattle.lsp_results.specs.Answers.{IsPlain, answer_view};
ghost use Rattle.lsp_results.specs.Renames.{IsRenamed};
ghost use Rattle.lsp_results.specs.Results.{IsResult};
ghost use Rattle.lsp_server.specs.Documents.{is_of, is_unpublished, fresh, changed_to, IsLearnt, learnt, published};
ghost use Rattle.lsp_server.specs.Notices.{published_of};

use lsp_documents::{Change, ChangeFault, Document};
use lsp_language::{Insight, Language};
use lsp_params::Ask;
use lsp_positions::{Encoding, Position};
use lsp_requests::ErrorCode;
use lsp_results::{diagnostics_value, published_value, renamed_value, result_value};
use serde_json::Value;
use std::alloc::{AllocError, Global};
use std::marker::Model;

/// An open document. What is known is of its text as it is now.
#[derive(Debug, Drop)]
pub struct OpenDocument {
    uri: String,
    document: Document,
    known: Option<Insight>,
    published: bool,
}

impl Model for OpenDocument {
    ghost use Rattle.std.specs.Prelude.{string_bytes};
    ghost use Rattle.lsp_server.specs.State.{Open};

    ghost Value = { Open };

    ghost view = { λ d. record { uri = string_bytes d.uri; content = d.document; known = d.known; published = d.published } };
}

impl OpenDocument {
    /// A text of which nothing is known yet.
    pub fn new(
        alloc: Global,
        uri: &str,
        version: i64,
        text: &str,
    ) -> Result<OpenDocument, AllocError>
        ensures { IfOk result (λ document. document ≡ fresh uri.now version text.now) }
    {
        let text = String::from_str(alloc, text)?;
        Ok(OpenDocument {
            uri: String::from_str(alloc, uri)?,
            document: Document::new(alloc, text, version)?,
            known: None,
            published: false,
        })
    }

    /// Whether it is the document of this name.
    pub fn is_of(&self, uri: &str) -> bool
        ensures { result ≡ is_of uri.now self.now }
    {
        self.uri.as_str() == uri
    }

    /// Whether its diagnostics are not published yet.
    pub fn is_unpublished(&self) -> bool
        ensures { result ≡ is_unpublished self.now }
    {
        !self.published
    }

    /// Makes changes, after which nothing is known. Where one of them cannot be made, none is.
    pub fn change(
        &mut self,
        alloc: Global,
        encoding: Encoding,
        version: i64,
        changes: &[Change],
    ) -> Result<(), AllocError>
        ensures changed { OnOk result
            (self.new ≡ changed_to self.old version (all_changed encoding self.old.content.text (replacements changes.now))) }
        ensures kept { OnErr result (self.new ≡ self.old) }
    {
        match self.document.change(alloc, encoding, version, changes) {
            Ok(()) => {
                self.known = None;
                self.published = false;
                Ok(())
            }
            Err(ChangeFault::EndBeforeStart) => Ok(()),
            Err(ChangeFault::NoMemory) => Err(AllocError),
        }
    }

    /// Asks the language what it tells of the text, unless it is known.
    #[tactic(auto, using(crate::proofs::Kept::learnt_same))]
    pub fn learn<L: Language>(&mut self, alloc: Global, language: &L) -> Result<(), AllocError>
        ensures learnt { OnOk result ((insight : Insight)
            × IsLearnt (L.tells language.now) self.old self.old.known insight × (self.new ≡ learnt self.old insight)) }
        ensures kept { OnErr result (self.new ≡ self.old) }
    {
        match &self.known {
            Some(_) => Ok(()),
            None => self.ask(alloc, language),
        }
    }

    // Asks the language what it tells of the text, of which nothing is known.
    fn ask<L: Language>(&mut self, alloc: Global, language: &L) -> Result<(), AllocError>
        requires { self.old.known ≡ None }
        ensures learnt { OnOk result ((insight : Insight)
            × (L.tells language.now).insight self.old.content.text insight × (self.new ≡ learnt self.old insight)) }
        ensures kept { OnErr result (self.new ≡ self.old) }
    {
        let insight = language.insight(alloc, self.document.text())?;
        self.known = Some(insight);
        Ok(())
    }

    /// What is answered where this is asked.
    pub fn result<L: Language>(
        &self,
        alloc: Global,
        language: &L,
        encoding: Encoding,
        ask: Ask,
    ) -> Result<Value, AllocError>
        requires { IsSome self.now.known }
        ensures value { (insight : Insight) → self.now.known ≡ Some insight
            → IfOk result (λ value. IsResult (L.tells language.now) encoding self.now.content.text self.now.uri insight ask (view value)) }
        ensures plain { IfOk result (λ value. has_float (view value) ≡ false) }
    {
        match &self.known {
            Some(insight) => self.result_by(alloc, language, encoding, insight, ask),
            None => unreachable!(),
        }
    }

    // What is answered by what is known, and by what the language tells besides.
    fn result_by<L: Language>(
        &self,
        alloc: Global,
        language: &L,
        encoding: Encoding,
        insight: &Insight,
        ask: Ask,
    ) -> Result<Value, AllocError>
        ensures value { IfOk result (λ value.
            IsResult (L.tells language.now) encoding self.now.content.text self.now.uri insight.now ask (view value)) }
        ensures plain { IfOk result (λ value. has_float (view value) ≡ false) }
    {
        result_value(
            alloc,
            language,
            encoding,
            &self.document,
            self.uri.as_str(),
            insight,
            ask,
        )
    }

    /// What is answered where this name is wanted for what stands at a position.
    pub fn renamed<L: Language>(
        &self,
        alloc: Global,
        language: &L,
        encoding: Encoding,
        position: Position,
        name: &str,
    ) -> Result<Result<Value, ErrorCode>, AllocError>
        ensures answer { IfOk result (λ answer. IsRenamed (L.tells language.now) encoding
            self.now.content.text self.now.uri position name.now (answer_view answer)) }
        ensures plain { IfOk result (λ answer. IsPlain (answer_view answer)) }
    {
        renamed_value(
            alloc,
            language,
            encoding,
            &self.document,
            self.uri.as_str(),
            position,
            name,
        )
    }

    /// What is published.
    pub fn publication(&self, alloc: Global, encoding: Encoding) -> Result<Value, AllocError>
        requires { IsSome self.now.known }
        ensures value { (insight : Insight) → self.now.known ≡ Some insight
            → IfOk result (λ value. view value ≡ published_of encoding self.now insight) }
        ensures plain { IfOk result (λ value. has_float (view value) ≡ false) }
    {
        match &self.known {
            Some(insight) => self.publication_by(alloc, encoding, insight),
            None => unreachable!(),
        }
    }

    // What is published by what is known.
    fn publication_by(
        &self,
        alloc: Global,
        encoding: Encoding,
        insight: &Insight,
    ) -> Result<Value, AllocError>
        ensures value { IfOk result (λ value. view value ≡ published_of encoding self.now insight.now) }
        ensures plain { IfOk result (λ value. has_float (view value) ≡ false) }
    {
        let uri = self.uri.as_str();
        let diagnostics = diagnostics_value(
            alloc,
            encoding,
            &self.document,
            uri,
            &insight.diagnostics,
        )?;
        published_value(alloc, uri, self.document.version(), diagnostics)
    }

    /// From now on its diagnostics are published.
    pub fn mark_published(&mut self)
        ensures { self.new ≡ published self.old }
    {
        self.published = true;
    }
}
