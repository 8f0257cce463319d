// Stores and sinks, in memory and real.
ghost use Rattle.std.specs.Prelude.{◌<◌};

use raml_io::{
    DirStore, MemSink, MemStore, Sink, SinkFault, StdSink, Store, StoreFault, put_all, read_up_to,
};
use std::alloc::{Alloc, AllocError, Global};
use std::io::{Read, Write};
use std::rt::Files;
use std::test::Fail;
use std::{fs, io};

fn file(alloc: Global, name: &str, content: &[u8]) -> Result<(String, Vec<u8>), AllocError> {
    let name = String::from_str(alloc, name)?;
    Ok((name, Vec::from_slice(alloc, content)?))
}

// Whether a read of at most so many bytes gives these, or fails where there are none.
fn reads<S: Store>(
    store: &mut S,
    alloc: Global,
    name: &str,
    most: u64,
    want: Option<&[u8]>,
) -> bool {
    match store.read(alloc, name, most) {
        Ok(bytes) => want == Some(bytes.as_slice()),
        Err(fault) => want.is_none() && fault == StoreFault::Failed,
    }
}

// The third read of this store fails.
fn store_in_memory(alloc: Global) -> Result<MemStore, AllocError> {
    let mut files = Vec::new(alloc);
    for (name, content) in [("a", "first"), ("b", ""), ("a", "second")] {
        files.push(file(alloc, name, content.as_bytes())?)?;
    }
    Ok(MemStore::new(files, vec![in alloc; 2]?))
}

#[test]
fn a_store_in_memory_gives_the_first_file_of_a_name(rt: HostRuntime) -> Result<(), Fail> {
    let mut store = store_in_memory(rt.alloc())?;
    let cases = [
        ("a", 9, Some(b"first".as_slice())),
        ("a", 3, Some(b"fir".as_slice())),
        ("a", 9, None),
        ("b", 9, Some(b"".as_slice())),
        ("c", 9, None),
        ("a", 5, Some(b"first".as_slice())),
    ];
    for (name, most, want) in cases {
        assert!(rt; reads(&mut store, rt.alloc(), name, most, want), "{name}");
    }
    Ok(())
}

// A sink that takes so many bytes a put, and fails at one.
fn sink(alloc: Global, room: usize, most: usize, failing: u64) -> Result<MemSink, AllocError>
    requires { 0 < most }
{
    MemSink::new(alloc, room, most, vec![in alloc; failing]?)
}

#[test]
fn a_sink_in_memory_counts_the_puts_that_bring_something(rt: HostRuntime) -> Result<(), Fail> {
    let mut sink = sink(rt.alloc(), 12, 5, 2)?;
    let cases = [
        ("", Ok(0)),
        ("abcdefgh", Ok(5)),
        ("fgh", Ok(3)),
        ("", Ok(0)),
        ("x", Err(SinkFault::Failed)),
        ("ijklmn", Ok(4)),
        ("m", Err(SinkFault::Failed)),
    ];
    for (piece, want) in cases {
        assert!(rt; sink.put(piece.as_bytes()) == want, "{piece}");
    }
    assert!(rt; sink.bytes() == b"abcdefghijkl".as_slice());
    Ok(())
}

const REPORT: &[u8] = b"main ticks <= 3\n";

// Whether just these first bytes of the report are put before a fault, or all of it without one.
fn puts(mut sink: MemSink, want: &[u8]) -> bool {
    let is_whole = put_all(&mut sink, REPORT) == Ok(());
    sink.bytes() == want && is_whole == (want == REPORT)
}

#[test]
fn what_was_put_before_a_fault_stays(rt: HostRuntime) -> Result<(), Fail> {
    assert!(rt; puts(sink(rt.alloc(), 100, 10, 1)?, b"main ticks"));
    for count in 0..REPORT.len() {
        let narrow = sink(rt.alloc(), 100, 1, count as u64)?;
        assert!(rt; puts(narrow, &REPORT[..count]), "{count}");
    }
    let whole = MemSink::new(rt.alloc(), 16, 1, Vec::new(rt.alloc()))?;
    assert!(rt; puts(whole, REPORT));
    Ok(())
}

// Takes at most two bytes a write and `left` in all. Then it fails, or takes none.
#[derive(Drop)]
struct Pipe<'a> {
    taken: &'a mut Vec<u8>,
    left: usize,
    is_broken: bool,
}

impl Write for Pipe<'_> {
    fn write(&mut self, buf: &[u8]) -> io::Result<usize> {
        if self.left == 0 && self.is_broken {
            return Err(io::ErrorKind::BrokenPipe.into());
        }
        let count = buf.len().min(2).min(self.left);
        self.taken.extend_from_slice(&buf[..count])?;
        self.left -= count;
        Ok(count)
    }

    fn flush(&mut self) -> io::Result<()> {
        Ok(())
    }
}

// Whether a stream that takes so many bytes gets just these of five, and the sink says this.
fn pipes(
    alloc: Global,
    left: usize,
    is_broken: bool,
    want: Result<(), SinkFault>,
    bytes: &[u8],
) -> bool {
    let mut taken = Vec::new(alloc);
    let mut sink = StdSink::new(Pipe {
        taken: &mut taken,
        left,
        is_broken,
    });
    let is_said = put_all(&mut sink, b"abcde") == want && sink.put(b"") == Ok(0);
    drop(sink);
    is_said && taken.as_slice() == bytes
}

#[test]
fn a_stream_gets_all_bytes_up_to_its_fault(rt: HostRuntime) {
    let cases = [
        (9, false, Ok(()), "abcde"),
        (3, false, Err(SinkFault::Failed), "abc"),
        (4, true, Err(SinkFault::Failed), "abcd"),
    ];
    for (left, is_broken, want, bytes) in cases {
        assert!(rt;
            pipes(rt.alloc(), left, is_broken, want, bytes.as_bytes()),
            "{bytes}"
        );
    }
}

const FOLDER: &str = "raml_io_test";

const FILE: &str = "raml_io_test/numbers";

// The bytes of the file.
fn numbers(alloc: Global) -> Result<Vec<u8>, AllocError> {
    let mut numbers = Vec::new(alloc);
    for number in 0..10_000u32 {
        numbers.push((number % 251) as u8)?;
    }
    Ok(numbers)
}

// Makes the file in its folder.
fn make<R: Alloc + Files>(rt: &R, numbers: &[u8]) -> Result<(), Fail> {
    let _ = fs::remove_dir_all(rt, FOLDER);
    fs::create_dir(rt, FOLDER)?;
    fs::write(rt, FILE, numbers)?;
    Ok(())
}

#[test]
fn real_files_are_read_by_their_names(rt: HostRuntime) -> Result<(), Fail> {
    let alloc = rt.alloc();
    let numbers = numbers(alloc)?;
    make(&rt, &numbers)?;
    let mut store = DirStore::new(&rt);
    for most in [0, 1, 4096, 9_999, 10_000, 20_000] {
        let front = &numbers[..numbers.len().min(most as usize)];
        assert!(rt; reads(&mut store, alloc, FILE, most, Some(front)), "{most}");
    }
    let by_way_of_parent = "raml_io_test/../raml_io_test/numbers";
    assert!(rt; reads(&mut store, alloc, by_way_of_parent, 20_000, Some(&numbers)));
    for name in [FOLDER, "raml_io_test/missing", ""] {
        assert!(rt; reads(&mut store, alloc, name, 10, None), "{name}");
    }
    fs::remove_dir_all(&rt, FOLDER)?;
    Ok(())
}

// Gives its bytes two at a time, and then its end, or fails in its place.
#[derive(Drop)]
struct Pieces {
    rest: &'static [u8],
    is_broken: bool,
}

impl Read for Pieces {
    fn read(&mut self, buf: &mut [u8]) -> io::Result<usize> {
        if self.rest.is_empty() && self.is_broken {
            return Err(io::ErrorKind::Other.into());
        }
        let count = self.rest.len().min(buf.len()).min(2);
        buf[..count].copy_from_slice(&self.rest[..count]);
        self.rest = &self.rest[count..];
        Ok(count)
    }
}

// Whether at most so many bytes are these, or the reader fails where there are none.
fn gives(alloc: Global, most: u64, is_broken: bool, want: Option<&[u8]>) -> bool {
    let mut pieces = Pieces {
        rest: b"abcde",
        is_broken,
    };
    match read_up_to(alloc, &mut pieces, most) {
        Ok(bytes) => want == Some(bytes.as_slice()),
        Err(fault) => want.is_none() && fault == StoreFault::Failed,
    }
}

#[test]
fn reads_go_on_to_the_end_or_a_fault(rt: HostRuntime) {
    for (most, is_broken, want) in [
        (9, false, Some(b"abcde".as_slice())),
        (3, true, Some(b"abc".as_slice())),
        (5, true, Some(b"abcde".as_slice())),
        (6, true, None),
    ] {
        assert!(rt; gives(rt.alloc(), most, is_broken, want), "{most}");
    }
}
