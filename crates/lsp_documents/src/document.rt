// Documents that a client has open.
ghost use Rattle.std.specs.Prelude.{◌≡◌, Some, None, IfOk, OnOk, OnErr, IsErrOf, string_bytes, IsCharBoundary};
ghost use Rattle.lsp_positions.specs.Positions.{offset_of, position_of};
ghost use Rattle.lsp_documents.specs.Changes.{all_changed, replacements};

use crate::change::{Change, ChangeFault};
use crate::text::LinedText;
use lsp_positions::{Encoding, Position};
use std::alloc::{AllocError, Global};
use std::marker::Model;

/// A text and its version. A clause sees the bytes of the text and the number of the version.
#[derive(Debug, Drop)]
pub struct Document {
    text: LinedText,
    version: i64,
}

impl Model for Document {
    ghost use Rattle.lsp_documents.specs.Document.{Content};

    ghost Value = { Content };

    ghost view = { λ document. record { text = document.text; version = document.version } };
}

impl Document {
    /// A document that is opened.
    pub fn new(alloc: Global, text: String, version: i64) -> Result<Document, AllocError>
        ensures text { IfOk result (λ document. document.text ≡ string_bytes text) }
        ensures version { IfOk result (λ document. document.version ≡ version) }
    {
        let text = LinedText::new(alloc, text)?;
        Ok(Document { text, version })
    }

    /// The text.
    pub fn text(&self) -> &str
        ensures { result.now ≡ self.now.text }
    {
        self.text.as_str()
    }

    /// The version, as the client told it.
    pub fn version(&self) -> i64
        ensures { result ≡ self.now.version }
    {
        self.version
    }

    /// The position of a byte of the text. An offset beyond the text is as one at its end.
    pub fn position(&self, encoding: Encoding, offset: usize) -> Position
        ensures { result ≡ position_of encoding self.now.text offset }
    {
        self.text.position(encoding, offset)
    }

    /// The offset of a position, at which a character of the text begins or the text ends.
    pub fn offset(&self, encoding: Encoding, position: Position) -> usize
        ensures offset { result ≡ offset_of encoding self.now.text position }
        ensures boundary { IsCharBoundary self.now.text result }
    {
        self.text.offset(encoding, position)
    }

    /// Makes changes in their order, each of the text that the one before leaves. Where one of them
    /// cannot be made, none is.
    pub fn change(
        &mut self,
        alloc: Global,
        encoding: Encoding,
        version: i64,
        changes: &[Change],
    ) -> Result<(), ChangeFault>
        ensures text { OnOk result (all_changed encoding self.old.text (replacements changes.now) ≡ Some self.new.text) }
        ensures version { OnOk result (self.new.version ≡ version) }
        ensures refused { IsErrOf result ChangeFault.EndBeforeStart → all_changed encoding self.old.text (replacements changes.now) ≡ None }
        ensures kept { OnErr result (self.new ≡ self.old) }
    {
        let text = all_changed(alloc, encoding, &self.text, changes)?;
        self.text = text;
        self.version = version;
        Ok(())
    }
}

// The text once all changes are made.
fn all_changed(
    alloc: Global,
    encoding: Encoding,
    text: &LinedText,
    changes: &[Change],
) -> Result<LinedText, ChangeFault>
    ensures changed { IfOk result (λ next. all_changed encoding text.now (replacements changes.now) ≡ Some next) }
    ensures refused { IsErrOf result ChangeFault.EndBeforeStart → all_changed encoding text.now (replacements changes.now) ≡ None }
{
    let mut next = text.copied(alloc)?;
    for change in changes {
        next = next.changed(alloc, encoding, change)?;
    }
    Ok(next)
}
