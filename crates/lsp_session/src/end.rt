// Ends of sessions.
use lsp_frames::FrameFault;
use raml_io::SinkFault;
use std::alloc::AllocError;

/// Why a session ended.
#[derive(Clone, Copy, Debug, PartialEq, Eq)]
pub enum SessionEnd {
    /// By `exit`. The program's status is to be 0 where `shutdown` came before it, and else 1.
    Exited(u8),
    /// What the editor sends ended, with no `exit`; the status is the same.
    Closed(u8),
    /// What the editor sends is no message.
    Faulty(FrameFault),
    /// It can't be read.
    ReadFault,
    /// What is sent can't be written.
    WriteFault,
    NoMemory,
    /// It took 2^64 - 1 steps, each of which reads a piece, takes a message or publishes the diagnostics of a document.
    TooLong,
}

impl From<AllocError> for SessionEnd {
    ghost use Rattle.std.specs.Prelude.{◌≡◌};
    ghost use Rattle.lsp_session.specs.declared.end.SessionEnd.TheVariants.{NoMemory};

    ghost from_gives = { λ _ end. end ≡ NoMemory };

    fn from(_: AllocError) -> SessionEnd {
        SessionEnd::NoMemory
    }
}

impl From<SinkFault> for SessionEnd {
    ghost use Rattle.std.specs.Prelude.{◌≡◌};
    ghost use Rattle.lsp_session.specs.declared.end.SessionEnd.TheVariants.{WriteFault};

    ghost from_gives = { λ _ end. end ≡ WriteFault };

    fn from(_: SinkFault) -> SessionEnd {
        SessionEnd::WriteFault
    }
}
