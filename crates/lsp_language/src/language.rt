// Languages.
ghost use Rattle.std.specs.Prelude.{IfOk};
ghost use Rattle.lsp_language.specs.Telling.{Telling};

use crate::insight::{Hover, Insight};
use crate::names::{Named, Renaming, Symbol};
use std::alloc::{AllocError, Global};

/// A language, which knows its texts.
pub trait Language {
    /// What it tells of texts.
    ghost tells: { Self → Telling };

    /// What is known of this text. It takes every text, also one that is no program.
    fn insight(&self, alloc: Global, text: &str) -> Result<Insight, AllocError>
        ensures { IfOk result ((tells self.now).insight text.now) };

    /// What is shown at this byte of the text, where no hover of its insight is met. It is asked for one place at a time, so that
    /// it may take longer than what is known at once. It takes every text and every place.
    fn hover(&self, alloc: Global, text: &str, offset: usize) -> Result<Option<Hover>, AllocError>
        ensures { IfOk result ((tells self.now).hover text.now offset) };

    /// What is named at this byte of the text, or just before it. It takes every text and every place.
    fn named(&self, alloc: Global, text: &str, offset: usize) -> Result<Option<Named>, AllocError>
        ensures { IfOk result ((tells self.now).named text.now offset) };

    /// What an outline shows of this text, in its order. It takes every text.
    fn symbols(&self, alloc: Global, text: &str) -> Result<Vec<Symbol>, AllocError>
        ensures { IfOk result (λ symbols. (tells self.now).symbols text.now symbols.items) };

    /// What comes of this name for what is named at this byte of the text, or just before it. It takes every text, every place and
    /// every name.
    fn renamed(
        &self,
        alloc: Global,
        text: &str,
        offset: usize,
        name: &str,
    ) -> Result<Renaming, AllocError>
        ensures { IfOk result ((tells self.now).renamed text.now offset name.now) };
}
