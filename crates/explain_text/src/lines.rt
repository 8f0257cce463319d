// Lines as they are written.
ghost use Rattle.std.specs.Prelude.{◌≡◌, ◌++◌, false, [], List, ℕ, string_bytes, OnOk};
ghost use Rattle.explain_text.specs.Wrapped.{break_of, lead, space, IsWrapped};
ghost use Rattle.explain_text.specs.Steps.{HasRead};

use std::alloc::{AllocError, Global};
use std::mem;
use unicode_width::UnicodeWidthStr;

/// What is written, and what is read and waits to be written.
#[derive(Drop)]
pub struct Lines {
    text: String,
    piece: String,
    is_first: bool,
    column: usize,
    width: usize,
    indent: usize,
}

impl Lines {
    /// Before anything is read.
    pub fn new(alloc: Global, width: usize, indent: usize) -> Lines
        ensures read { HasRead (break_of indent) [] (string_bytes result.text) (string_bytes result.piece) result.is_first }
        ensures indent { result.indent ≡ indent }
    {
        Lines {
            text: String::new(alloc),
            piece: String::new(alloc),
            is_first: true,
            column: 0,
            width,
            indent,
        }
    }

    /// What is written.
    pub fn text(self) -> String
        ensures { string_bytes result ≡ string_bytes self.text }
    {
        self.text
    }

    /// Reads a word and the space behind it. The line may be broken there unless the word stays with
    /// what follows.
    pub fn read(&mut self, alloc: Global, word: &str, stays: bool) -> Result<(), AllocError>
        ensures read { OnOk result ((line : List ℕ) →
            HasRead (break_of self.old.indent) line (string_bytes self.old.text) (string_bytes self.old.piece) self.old.is_first →
            HasRead (break_of self.old.indent) (line ++ (word.now ++ space)) (string_bytes self.new.text) (string_bytes self.new.piece)
            self.new.is_first) }
        ensures indent { OnOk result (self.new.indent ≡ self.old.indent) }
    {
        if stays {
            self.wait(word)
        } else {
            self.put(alloc, word)
        }
    }

    // Keeps the word and the space behind it with the piece.
    fn wait(&mut self, word: &str) -> Result<(), AllocError>
        ensures piece { OnOk result (string_bytes self.new.piece ≡ string_bytes self.old.piece ++ (word.now ++ space)) }
        ensures text { OnOk result (string_bytes self.new.text ≡ string_bytes self.old.text) }
        ensures first { OnOk result (self.new.is_first ≡ self.old.is_first) }
        ensures indent { OnOk result (self.new.indent ≡ self.old.indent) }
    {
        self.piece.push_str(word)?;
        self.piece.push_str(" ")
    }

    /// Writes the piece and the last word of it.
    pub fn put(&mut self, alloc: Global, word: &str) -> Result<(), AllocError>
        ensures text { OnOk result ((line : List ℕ) →
            HasRead (break_of self.old.indent) line (string_bytes self.old.text) (string_bytes self.old.piece) self.old.is_first →
            IsWrapped (break_of self.old.indent) (line ++ word.now) (string_bytes self.new.text)) }
        ensures piece { OnOk result (string_bytes self.new.piece ≡ []) }
        ensures first { OnOk result (self.new.is_first ≡ false) }
        ensures indent { OnOk result (self.new.indent ≡ self.old.indent) }
    {
        let mut piece = mem::replace(&mut self.piece, String::new(alloc));
        append(&mut piece, word)?;
        self.lead(piece.width())?;
        self.is_first = false;
        append(&mut self.text, &piece)
    }

    // Writes what stands before a piece of this width: nothing before the first, and before another
    // one a space where it fits behind it, or a break.
    fn lead(&mut self, wide: usize) -> Result<(), AllocError>
        ensures text { OnOk result ((line : List ℕ) → IsWrapped (break_of self.old.indent) line (string_bytes self.old.text) →
            IsWrapped (break_of self.old.indent) (line ++ lead self.old.is_first) (string_bytes self.new.text)) }
        ensures piece { OnOk result (string_bytes self.new.piece ≡ string_bytes self.old.piece) }
        ensures indent { OnOk result (self.new.indent ≡ self.old.indent) }
    {
        let end = self.column.saturating_add(1).saturating_add(wide);
        if self.is_first {
            self.column = wide;
            Ok(())
        } else if end <= self.width {
            self.column = end;
            append(&mut self.text, " ")
        } else {
            self.column = self.indent.saturating_add(wide);
            push_break(&mut self.text, self.indent)
        }
    }
}

fn append(text: &mut String, more: &str) -> Result<(), AllocError>
    ensures { OnOk result (string_bytes text.new ≡ string_bytes text.old ++ more.now) }
{
    text.push_str(more)
}

// Appends a newline and so many spaces.
fn push_break(text: &mut String, indent: usize) -> Result<(), AllocError>
    ensures { OnOk result (string_bytes text.new ≡ string_bytes text.old ++ break_of indent) }
{
    text.push_str("\n")?;
    for _ in 0..indent {
        text.push_str(" ")?;
    }
    Ok(())
}
