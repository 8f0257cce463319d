// Bytes that are written to memory.
ghost use Rattle.std.specs.Prelude.{◌≡◌, ◌≤◌, ◌<◌, ◌↔◌, Some, length, IfOk, OnOk, OnErr, IsErr};
ghost use Rattle.raml_io.specs.Faults.{Rose};
ghost use Rattle.raml_io.specs.MemSink.{new_sink, FailsPut, taken, after_put, after_fault};

use crate::sink::{Sink, SinkFault};
use std::alloc::{AllocError, Global};
use std::marker::Model;

/// A sink in memory, with room for so many bytes. It takes only so many in one put, and fails at
/// chosen puts.
#[derive(Drop)]
pub struct MemSink {
    room: usize,
    most: usize,
    failing: Vec<u64>,
    written: Vec<u8>,
    puts: u64,
    faults: u64,
}

impl Model for MemSink {
    ghost use Rattle.std.specs.Prelude.{◌<◌, ◌≤◌, vec_len, vec_capacity};
    ghost use Rattle.raml_io.specs.MemSink.{SinkState};

    ghost Value = { SinkState };

    ghost view = { λ s. record {
      room = s.room;
      most = s.most;
      failing = s.failing.items;
      written = s.written.items;
      puts = s.puts;
      faults = s.faults;
    } };

    ghost invariant = { λ s.
        (0 < s.most) × (vec_len s.written ≤ s.room) × (s.room ≤ vec_capacity s.written) };
}

impl MemSink {
    /// Takes memory for `room` bytes at once; no put takes any.
    ///
    /// Puts of pieces that are not empty are numbered from 0, up to `u64::MAX`, where the number
    /// stands. Such a put fails where its number is in `failing` or no room is left. Otherwise it
    /// takes as many bytes of its piece as there is room for, and at most `most`.
    pub fn new(
        alloc: Global,
        room: usize,
        most: usize,
        failing: Vec<u64>,
    ) -> Result<MemSink, AllocError>
        requires { 0 < most }
        ensures { IfOk result (λ sink. sink ≡ new_sink room most failing.items) }
    {
        let written = Vec::with_capacity(alloc, room)?;
        Ok(MemSink {
            room,
            most,
            failing,
            written,
            puts: 0,
            faults: 0,
        })
    }

    /// What was written.
    pub fn bytes(&self) -> &[u8]
        ensures { result.now ≡ self.now.written }
    {
        &self.written
    }
}

impl Sink for MemSink {
    ghost written = { λ s. Some s.written };

    ghost faults = { λ s. s.faults };

    fn put(&mut self, piece: &[u8]) -> Result<usize, SinkFault>
        ensures some { 0 < length piece.now → IfOk result (λ n. 0 < n) }
        ensures empty { length piece.now ≡ 0 → result ≡ Ok 0 }
        ensures idle { length piece.now ≡ 0 → self.new ≡ self.old }
        ensures fails { IsErr result ↔ ((0 < length piece.now) × FailsPut self.old) }
        ensures takes { IfOk result (λ n. n ≡ taken self.old piece.now) }
        ensures ok { 0 < length piece.now → OnOk result (self.new ≡ after_put self.old piece.now) }
        ensures err { OnErr result (self.new ≡ after_fault self.old) }
        ensures failed { OnErr result (Rose self.old.faults self.new.faults) }
        ensures later { self.old.faults ≤ self.new.faults }
    {
        if piece.is_empty() {
            return Ok(0);
        }
        let number = self.puts;
        self.puts = number.saturating_add(1);
        let left = self.room - self.written.len();
        if left == 0 || self.failing.contains(&number) {
            self.faults = self.faults.saturating_add(1);
            return Err(SinkFault::Failed);
        }
        let count = piece.len().min(self.most).min(left);
        self.written.extend_from_slice(&piece[..count]).unwrap();
        Ok(count)
    }
}
