// What is written to.
ghost use Rattle.std.specs.Prelude.{◌≡◌, ◌≤◌, ◌<◌, List, ℕ, Option, length, take, IfOk, OnOk, OnErr};
ghost use Rattle.raml_io.specs.Faults.{Rose};
ghost use Rattle.raml_io.specs.Written.{grown, GrewByFront};

/// Why nothing was written.
#[derive(Clone, Copy, Debug, PartialEq, Eq)]
pub enum SinkFault {
    /// The sink failed, and counted it.
    Failed,
}

/// A place to write bytes to.
pub trait Sink {
    /// What was written, where that is told.
    ghost written: { Self → Option (List ℕ) };

    /// How often a put has failed.
    ghost faults: { Self → ℕ };

    /// Writes the first bytes of the piece, at least one unless it is empty, and says how many.
    fn put(&mut self, piece: &[u8]) -> Result<usize, SinkFault>
        ensures within { IfOk result (λ n. n ≤ length piece.now) }
        ensures some { 0 < length piece.now → IfOk result (λ n. 0 < n) }
        ensures grew { IfOk result (λ n. written self.new ≡ grown (written self.old) (take n piece.now)) }

        // An empty piece is always taken, and changes nothing.
        ensures empty { length piece.now ≡ 0 → result ≡ Ok 0 }
        ensures idle { length piece.now ≡ 0 → self.new ≡ self.old }

        // At a fault nothing was written, and it was counted. The count never falls.
        ensures kept { OnErr result (written self.new ≡ written self.old) }
        ensures failed { OnErr result (Rose (faults self.old) (faults self.new)) }
        ensures later { faults self.old ≤ faults self.new };
}

/// Writes all of the bytes, in order. It takes no memory of its own.
///
/// At a fault of the sink it stops, and a front of the bytes was written.
pub fn put_all<O: Sink>(out: &mut O, bytes: &[u8]) -> Result<(), SinkFault>
    ensures ok { OnOk result (O.written out.new ≡ grown (O.written out.old) bytes.now) }
    ensures err { OnErr result (GrewByFront (O.written out.old) (O.written out.new) bytes.now) }
    ensures failed { OnErr result (Rose (O.faults out.old) (O.faults out.new)) }
    ensures later { O.faults out.old ≤ O.faults out.new }
{
    let mut done = 0;
    while done < bytes.len() {
        done += out.put(&bytes[done..])?;
    }
    Ok(())
}
