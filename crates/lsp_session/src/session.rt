// Sessions.
ghost use Rattle.std.specs.Prelude.{◌≡◌, ℕ, List, [], Option, IfErr, OnOk};
ghost use Rattle.lsp_frames.specs.Frames.{front, More, Whole};
ghost use Rattle.lsp_session.specs.Deeds.{started};
ghost use Rattle.lsp_session.specs.Sessions.{IsServed, KeepsOn, EndsIn, IsFetched, StopsBy, moment_of, streams_of};

use crate::end::SessionEnd;
use crate::heard::Heard;
use lsp_frames::{FrameReader, Reading};
use lsp_language::Language;
use lsp_server::{Flow, Server};
use raml_io::{Sink, put_all};
use std::alloc::Global;
use std::io::{ErrorKind, Read};

/// So many bytes are read at once: messages that come together are taken together, and then diagnostics are published.
const PIECE: usize = 16_384;

/// Serves an editor: takes each message that it sends, and writes what is sent for it to `out`. Where no whole message is read,
/// it publishes diagnostics before it reads on. What is read is kept in `heard`, where it keeps anything.
pub fn serve<C: Read, L: Language, O: Sink>(
    alloc: Global,
    client: &mut C,
    language: &L,
    heard: &mut Heard,
    out: &mut O,
) -> SessionEnd
    ensures { IsServed (L.tells language.now) (streams_of (C.remaining client.old) (O.written out.old))
        (streams_of (C.remaining client.new) (O.written out.new)) result }
{
    let mut session = Session::new(alloc);
    for _ in 0..u64::MAX {
        if let Err(end) = session.step(alloc, client, language, heard, out) {
            return end;
        }
    }
    SessionEnd::TooLong
}

// A server, and the reader of what its editor sends.
#[derive(Debug, Drop)]
struct Session {
    server: Server,
    reader: FrameReader,
}

impl Session {
    fn new(alloc: Global) -> Session
        ensures server { result.server ≡ started }
        ensures reader { result.reader ≡ [] }
    {
        Session {
            server: Server::new(alloc),
            reader: FrameReader::new(alloc),
        }
    }

    // Takes the next message, or does what is to be done where there is none yet.
    fn step<C: Read, L: Language, O: Sink>(
        &mut self,
        alloc: Global,
        client: &mut C,
        language: &L,
        heard: &mut Heard,
        out: &mut O,
    ) -> Result<(), SessionEnd>
        ensures on { OnOk result (KeepsOn (L.tells language.now)
            (moment_of (C.remaining client.old) (O.written out.old) self.old.server self.old.reader)
            (moment_of (C.remaining client.new) (O.written out.new) self.new.server self.new.reader)) }
        ensures ends { IfErr result (EndsIn (L.tells language.now)
            (moment_of (C.remaining client.old) (O.written out.old) self.old.server self.old.reader)
            (streams_of (C.remaining client.new) (O.written out.new))) }
    {
        match self.reader.read(alloc)? {
            Reading::Message(content) => self.take(alloc, language, &content, out),
            Reading::More => self.wait(alloc, client, language, heard, out),
            Reading::Faulty(fault) => Err(SessionEnd::Faulty(fault)),
        }
    }

    // Takes a message that was read.
    fn take<L: Language, O: Sink>(
        &mut self,
        alloc: Global,
        language: &L,
        content: &[u8],
        out: &mut O,
    ) -> Result<(), SessionEnd>
        ensures on { (rest : List ℕ) (comes : Option (List ℕ)) → front rest ≡ Whole content.now self.old.reader
            → OnOk result (KeepsOn (L.tells language.now)
            (moment_of comes (O.written out.old) self.old.server rest)
            (moment_of comes (O.written out.new) self.new.server self.new.reader)) }
        ensures ends { (rest : List ℕ) (comes : Option (List ℕ)) → front rest ≡ Whole content.now self.old.reader
            → IfErr result (EndsIn (L.tells language.now)
            (moment_of comes (O.written out.old) self.old.server rest) (streams_of comes (O.written out.new))) }
    {
        let mut sent = Vec::new(alloc);
        let flow = self.server.take(alloc, language, content, &mut sent)?;
        put_all(out, &sent)?;
        match flow {
            Flow::GoOn => Ok(()),
            Flow::End(status) => Err(SessionEnd::Exited(status)),
        }
    }

    // Publishes diagnostics, or reads on where all are published.
    fn wait<C: Read, L: Language, O: Sink>(
        &mut self,
        alloc: Global,
        client: &mut C,
        language: &L,
        heard: &mut Heard,
        out: &mut O,
    ) -> Result<(), SessionEnd>
        ensures on { front self.old.reader ≡ More → OnOk result (KeepsOn (L.tells language.now)
            (moment_of (C.remaining client.old) (O.written out.old) self.old.server self.old.reader)
            (moment_of (C.remaining client.new) (O.written out.new) self.new.server self.new.reader)) }
        ensures ends { front self.old.reader ≡ More → IfErr result (EndsIn (L.tells language.now)
            (moment_of (C.remaining client.old) (O.written out.old) self.old.server self.old.reader)
            (streams_of (C.remaining client.new) (O.written out.new))) }
    {
        if self.publish(alloc, language, out)? {
            return Ok(());
        }
        self.fetch(client, heard)
    }

    // Publishes the diagnostics of a document, if there is one for which they are not published yet.
    fn publish<L: Language, O: Sink>(
        &mut self,
        alloc: Global,
        language: &L,
        out: &mut O,
    ) -> Result<bool, SessionEnd>
        ensures on { (comes : Option (List ℕ)) → OnOk result (KeepsOn (L.tells language.now)
            (moment_of comes (O.written out.old) self.old.server self.old.reader)
            (moment_of comes (O.written out.new) self.new.server self.new.reader)) }
        ensures ends { (comes : Option (List ℕ)) → front self.old.reader ≡ More → IfErr result (EndsIn (L.tells language.now)
            (moment_of comes (O.written out.old) self.old.server self.old.reader) (streams_of comes (O.written out.new))) }
        ensures kept { self.new.reader ≡ self.old.reader }
    {
        let mut sent = Vec::new(alloc);
        let published = self.server.settle(alloc, language, &mut sent)?;
        put_all(out, &sent)?;
        Ok(published)
    }

    // Reads what comes next.
    fn fetch<C: Read>(&mut self, client: &mut C, heard: &mut Heard) -> Result<(), SessionEnd>
        ensures fetched { OnOk result (IsFetched (C.remaining client.old) (C.remaining client.new) self.old.reader self.new.reader) }
        ensures stops { IfErr result (StopsBy (C.remaining client.old) (C.remaining client.new) self.old.server) }
        ensures kept { self.new.server ≡ self.old.server }
    {
        let mut buffer = [0u8; PIECE];
        match client.read(&mut buffer) {
            Ok(0) => Err(SessionEnd::Closed(self.server.status())),
            Ok(count) => {
                heard.hear(&buffer[..count]);
                Ok(self.reader.push(&buffer[..count])?)
            }
            Err(error) if error.kind() == ErrorKind::Interrupted => Ok(()),
            Err(_) => Err(SessionEnd::ReadFault),
        }
    }
}
