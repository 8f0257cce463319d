// A reader that is fed with the pieces of a stream.
ghost use Rattle.std.specs.Prelude.{◌≡◌, ◌++◌, ◌≤◌, [], drop, vec_len, IfOk, OnOk, OnErr};
ghost use Rattle.lsp_frames.specs.Frames.{front, rest_of};
ghost use Rattle.lsp_frames.specs.Seen.{front_told};

use crate::seen::{Reading, Seen, looked, read_front};
use std::alloc::{AllocError, Global};
use std::marker::Model;

/// A reader of messages. A clause sees it as the bytes that came and are not read yet.
#[derive(Debug, Drop)]
pub struct FrameReader {
    bytes: Vec<u8>,
    start: usize,
    seen: Seen,
}

impl Model for FrameReader {
    ghost use Rattle.std.specs.Prelude.{ℕ, List, drop};
    ghost use Rattle.lsp_frames.specs.Reader.{IsReader};

    ghost Value = { List ℕ };

    ghost view = { λ r. drop r.start r.bytes.items };

    ghost invariant = { λ r. IsReader r.bytes.items r.start r.seen };
}

impl FrameReader {
    /// Before anything came.
    pub fn new(alloc: Global) -> FrameReader
        ensures { result ≡ [] }
    {
        FrameReader {
            bytes: Vec::new(alloc),
            start: 0,
            seen: Seen::Open(0),
        }
    }

    /// Takes the next piece of the stream. Without memory it is not taken.
    pub fn push(&mut self, bytes: &[u8]) -> Result<(), AllocError>
        ensures ok { OnOk result (self.new ≡ self.old ++ bytes.now) }
        ensures err { OnErr result (self.new ≡ self.old) }
    {
        self.forget();
        self.bytes.extend_from_slice(bytes)
    }

    // Drops what is read, where it is at least half of what is kept: so each byte is moved once.
    fn forget(&mut self)
        ensures { self.new ≡ self.old }
    {
        if self.start >= self.bytes.len() - self.start {
            drop_front(&mut self.bytes, self.start);
            self.start = 0;
        }
    }

    /// Reads what stands at the front: a message is taken out, and after a fault each answer is that
    /// fault. Without memory nothing is read.
    pub fn read(&mut self, alloc: Global) -> Result<Reading, AllocError>
        ensures front { IfOk result (λ reading. front self.old ≡ front_told reading self.new) }
        ensures rest { OnOk result (self.new ≡ rest_of self.old (front self.old)) }
        ensures err { OnErr result (self.new ≡ self.old) }
    {
        self.seen = looked(&self.bytes[self.start..], self.seen);
        let (reading, taken) = read_front(alloc, &self.bytes[self.start..], self.seen)?;
        if taken > 0 {
            self.start += taken;
            self.seen = Seen::Open(0);
        }
        Ok(reading)
    }
}

// Drops the bytes before a place.
fn drop_front(bytes: &mut Vec<u8>, start: usize)
    requires { start ≤ vec_len bytes.old }
    ensures { bytes.new.items ≡ drop start bytes.old.items }
{
    let end = bytes.len();
    bytes.copy_within(start..end, 0);
    bytes.truncate(end - start);
}
