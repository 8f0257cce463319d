// Changes of a text.
ghost use Rattle.std.specs.Prelude.{◌≡◌};

use lsp_positions::Position;
use std::alloc::AllocError;

/// A part of a text. Its end belongs to what follows it.
#[derive(Clone, Copy, Debug, PartialEq, Eq)]
pub struct Range {
    pub start: Position,
    pub end: Position,
}

/// A text that stands in the place of a part of another, and of all of it where no range is told.
#[derive(Debug, Drop)]
pub struct Change {
    pub range: Option<Range>,
    pub text: String,
}

/// Why a change was not made.
#[derive(Clone, Copy, Debug, PartialEq, Eq)]
pub enum ChangeFault {
    /// The end of a range stands before its start.
    EndBeforeStart,
    NoMemory,
}

impl From<AllocError> for ChangeFault {
    ghost use Rattle.lsp_documents.specs.declared.change.ChangeFault.TheVariants.{NoMemory};

    ghost from_gives = { λ _ fault. fault ≡ NoMemory };

    fn from(_: AllocError) -> ChangeFault {
        ChangeFault::NoMemory
    }
}
