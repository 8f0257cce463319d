// A text with the starts of its lines.
ghost use Rattle.std.specs.Prelude.{◌≡◌, Some, None, IfOk, IsErrOf, string_bytes, IsCharBoundary};
ghost use Rattle.lsp_positions.specs.Positions.{offset_of, position_of};
ghost use Rattle.lsp_documents.specs.Changes.{changed, changed_in, replaced, replacement};

use crate::change::{Change, ChangeFault, Range};
use lsp_positions::{Encoding, LineTable, Position};
use std::alloc::{AllocError, Global};
use std::marker::Model;

/// A text with the table of its lines. A clause sees it as its bytes.
#[derive(Debug, Drop)]
pub struct LinedText {
    text: String,
    lines: LineTable,
}

impl Model for LinedText {
    ghost use Rattle.std.specs.Prelude.{ℕ, List, ◌≡◌, string_bytes};
    ghost use Rattle.lsp_positions.specs.Lines.{line_starts};

    ghost Value = { List ℕ };

    ghost view = { λ text. string_bytes text.text };

    ghost invariant = { λ text. text.lines ≡ line_starts (string_bytes text.text) };
}

impl LinedText {
    /// The text with its table.
    pub fn new(alloc: Global, text: String) -> Result<LinedText, AllocError>
        ensures { IfOk result (λ lined. lined ≡ string_bytes text) }
    {
        let lines = LineTable::new(alloc, text.as_str())?;
        Ok(LinedText { text, lines })
    }

    /// Its bytes.
    pub fn as_str(&self) -> &str
        ensures { result.now ≡ self.now }
    {
        self.text.as_str()
    }

    /// The position of an offset.
    pub fn position(&self, encoding: Encoding, offset: usize) -> Position
        ensures { result ≡ position_of encoding self.now offset }
    {
        self.lines.position(self.text.as_str(), encoding, offset)
    }

    /// The offset of a position.
    pub fn offset(&self, encoding: Encoding, position: Position) -> usize
        ensures offset { result ≡ offset_of encoding self.now position }
        ensures boundary { IsCharBoundary self.now result }
    {
        self.lines.offset(self.text.as_str(), encoding, position)
    }

    /// A copy.
    pub fn copied(&self, alloc: Global) -> Result<LinedText, AllocError>
        ensures { IfOk result (λ copy. copy ≡ self.now) }
    {
        LinedText::new(alloc, String::from_str(alloc, self.as_str())?)
    }

    /// The text once a change is made.
    pub fn changed(
        &self,
        alloc: Global,
        encoding: Encoding,
        change: &Change,
    ) -> Result<LinedText, ChangeFault>
        ensures changed { IfOk result (λ next. changed encoding self.now (replacement change.now) ≡ Some next) }
        ensures refused { IsErrOf result ChangeFault.EndBeforeStart → changed encoding self.now (replacement change.now) ≡ None }
    {
        let text = self.text_after(alloc, encoding, change)?;
        Ok(LinedText::new(alloc, text)?)
    }

    // The bytes once a change is made.
    fn text_after(
        &self,
        alloc: Global,
        encoding: Encoding,
        change: &Change,
    ) -> Result<String, ChangeFault>
        ensures changed { IfOk result (λ text. changed encoding self.now (replacement change.now) ≡ Some (string_bytes text)) }
        ensures refused { IsErrOf result ChangeFault.EndBeforeStart → changed encoding self.now (replacement change.now) ≡ None }
    {
        match change.range {
            None => Ok(String::from_str(alloc, change.text.as_str())?),
            Some(range) => self.replaced(alloc, encoding, range, change.text.as_str()),
        }
    }

    // The bytes once a part is replaced.
    fn replaced(
        &self,
        alloc: Global,
        encoding: Encoding,
        range: Range,
        new: &str,
    ) -> Result<String, ChangeFault>
        ensures changed { IfOk result (λ text. changed_in encoding self.now (Some range) new.now ≡ Some (string_bytes text)) }
        ensures refused { IsErrOf result ChangeFault.EndBeforeStart → changed_in encoding self.now (Some range) new.now ≡ None }
    {
        let start = self.offset(encoding, range.start);
        let end = self.offset(encoding, range.end);
        if end < start {
            return Err(ChangeFault::EndBeforeStart);
        }
        Ok(replaced(alloc, self.as_str(), start, end, new)?)
    }
}

// A text in which another stands in place of what stands between two places.
fn replaced(
    alloc: Global,
    text: &str,
    start: usize,
    end: usize,
    new: &str,
) -> Result<String, AllocError>
    requires start { IsCharBoundary text.now start }
    requires end { IsCharBoundary text.now end }
    ensures { IfOk result (λ whole. string_bytes whole ≡ replaced text.now start end new.now) }
{
    let mut whole = String::new(alloc);
    whole.push_str(text.split_at(start).0)?;
    whole.push_str(new)?;
    whole.push_str(text.split_at(end).1)?;
    Ok(whole)
}
