// The language of programs.
use crate::source::source_insight;
use explain_counts::line_hover;
use explain_scopes::{named_at, renamed_at, symbols_of};
use lsp_language::{Hover, Insight, Language, Named, Renaming, Symbol};
use std::alloc::{AllocError, Global};

/// The language of programs, whose bounds are those of degrees up to one, as far as analyses go with so many pivots.
#[derive(Clone, Copy, Debug)]
pub struct Programs {
    /// The greatest degree to try. More than 4 counts as 4.
    pub degree: u8,
    /// The analysis of a degree that takes more pivots is given up.
    pub pivots: usize,
}

impl Language for Programs {
    ghost use Rattle.std.specs.Prelude.{min, IfOk};
    ghost use Rattle.lsp_language.specs.Telling.{Telling};
    ghost use Rattle.explain_language.specs.Tells.{told_by};

    ghost tells = { λ programs. told_by (min programs.degree 4) programs.pivots };

    fn insight(&self, alloc: Global, text: &str) -> Result<Insight, AllocError> {
        source_insight(alloc, text.as_bytes(), self.degree.min(4), self.pivots)
    }

    fn hover(&self, alloc: Global, text: &str, offset: usize) -> Result<Option<Hover>, AllocError> {
        line_hover(alloc, text.as_bytes(), self.degree.min(4), offset)
    }

    fn named(&self, alloc: Global, text: &str, offset: usize) -> Result<Option<Named>, AllocError> {
        named_at(alloc, text.as_bytes(), offset)
    }

    fn symbols(&self, alloc: Global, text: &str) -> Result<Vec<Symbol>, AllocError> {
        symbols_of(alloc, text)
    }

    fn renamed(
        &self,
        alloc: Global,
        text: &str,
        offset: usize,
        name: &str,
    ) -> Result<Renaming, AllocError> {
        renamed_at(alloc, text.as_bytes(), offset, name)
    }
}
