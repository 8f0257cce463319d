// A standard stream.
ghost use Rattle.std.specs.Prelude.{◌≡◌, ◌≤◌, ◌<◌, None, length, IfOk, OnOk, OnErr};
ghost use Rattle.std.specs.Io.KnownBytes.{WriteAppends};
ghost use Rattle.raml_io.specs.Faults.{Rose, next_count};

use crate::sink::{Sink, SinkFault};
use std::io::Write;
use std::marker::Model;

/// A sink over a writer, as over a standard stream. A write that takes no bytes is a fault.
///
/// Contracts see it as its writer and its count of faults.
#[derive(Drop)]
pub struct StdSink<W: Write + Drop> {
    writer: W,
    faults: u64,
}

impl<W: Write + Drop> Model for StdSink<W> {
    ghost use Rattle.raml_io.specs.Written.{CountedWriter};

    ghost Value = { CountedWriter W };

    ghost view = { λ s. record { writer = s.writer; faults = s.faults } };
}

impl<W: Write + Drop> StdSink<W> {
    /// Over this writer. No put has failed yet.
    pub fn new(writer: W) -> StdSink<W>
        ensures writer { result.writer ≡ writer }
        ensures faults { result.faults ≡ 0 }
    {
        StdSink { writer, faults: 0 }
    }
}

impl<W: Write + Drop> Sink for StdSink<W> {
    ghost written = { λ _. None };

    ghost faults = { λ s. s.faults };

    fn put(&mut self, piece: &[u8]) -> Result<usize, SinkFault>
        ensures within { IfOk result (λ n. n ≤ length piece.now) }
        ensures some { 0 < length piece.now → IfOk result (λ n. 0 < n) }
        ensures empty { length piece.now ≡ 0 → result ≡ Ok 0 }
        ensures idle { length piece.now ≡ 0 → self.new ≡ self.old }
        ensures appends { WriteAppends (W.contents self.old.writer) (W.contents self.new.writer) result piece.now }
        ensures ok { OnOk result (self.new.faults ≡ self.old.faults) }
        ensures err { OnErr result (self.new.faults ≡ next_count self.old.faults) }
        ensures failed { OnErr result (Rose self.old.faults self.new.faults) }
        ensures later { self.old.faults ≤ self.new.faults }
    {
        if piece.is_empty() {
            return Ok(0);
        }
        match self.writer.write(piece) {
            Ok(0) | Err(_) => {
                self.faults = self.faults.saturating_add(1);
                Err(SinkFault::Failed)
            }
            Ok(count) => Ok(count),
        }
    }
}
