// The messages of a stream that comes in pieces.
ghost use Rattle.std.specs.Prelude.{◌≡◌, IfOk, OnOk};
ghost use Rattle.std.specs.List.{flat_map};
ghost use Rattle.lsp_frames.specs.Frames.{front, messages_of};
ghost use Rattle.lsp_frames.specs.Read.{stream_of, contents_of, LeavesBehind, fault_of};
ghost use Rattle.lsp_frames.specs.Seen.{Ends};

use crate::field::FrameFault;
use crate::reader::FrameReader;
use crate::seen::Reading;
use std::alloc::{AllocError, Global};

/// The contents of the messages of a stream, in order, and the fault behind them, if there is one.
#[derive(Debug, Drop)]
pub struct Messages {
    pub contents: Vec<Vec<u8>>,
    pub fault: Option<FrameFault>,
}

/// The messages of a stream that comes in these pieces, which are those of the whole stream however it
/// is cut.
pub fn read_pieces(alloc: Global, pieces: &[Vec<u8>]) -> Result<Messages, AllocError>
    ensures { IfOk result (λ messages. stream_of messages ≡ messages_of (flat_map (λ piece. piece.items) pieces.now)) }
{
    let mut reader = FrameReader::new(alloc);
    let mut contents = Vec::new(alloc);
    for piece in pieces {
        reader.push(piece)?;
        read_whole(alloc, &mut reader, &mut contents)?;
    }
    let fault = fault_behind(alloc, &mut reader)?;
    Ok(Messages { contents, fault })
}

// Reads each message that is whole.
fn read_whole(
    alloc: Global,
    reader: &mut FrameReader,
    contents: &mut Vec<Vec<u8>>,
) -> Result<(), AllocError>
    ensures leaves { OnOk result (LeavesBehind (contents_of contents.old.items) reader.old (contents_of contents.new.items) reader.new) }
    ensures ends { OnOk result (Ends (front reader.new)) }
{
    while let Reading::Message(content) = reader.read(alloc)? {
        contents.push(content)?;
    }
    Ok(())
}

// The fault that stands at the front, if no message does.
fn fault_behind(alloc: Global, reader: &mut FrameReader) -> Result<Option<FrameFault>, AllocError>
    ensures { Ends (front reader.old) → IfOk result (λ fault. front reader.old ≡ fault_of fault) }
{
    match reader.read(alloc)? {
        Reading::Faulty(fault) => Ok(Some(fault)),
        Reading::More => Ok(None),
        Reading::Message(_) => Ok(None),
    }
}
