//! What a call does where files and streams in memory fail.
use crate::streams::store_of;
use raml_io::MemSink;
use raml_top::raml;
use std::alloc::{AllocError, Global};
use std::fmt::Write;
use std::test::Fail;

/// The reads, the puts on out and the puts on err that fail, each counted from 0.
#[derive(Clone, Copy)]
pub(crate) struct Faults<'a> {
    pub(crate) reads: &'a [u64],
    pub(crate) puts: &'a [u64],
    pub(crate) lines: &'a [u64],
}

/// Nothing fails.
pub(crate) const NO_FAULTS: Faults<'static> = Faults {
    reads: &[],
    puts: &[],
    lines: &[],
};

// A sink with ample room that takes one byte a put.
fn narrow_sink(alloc: Global, failing: &[u64]) -> Result<MemSink, AllocError> {
    MemSink::new(alloc, 1_000_000, 1, Vec::from_slice(alloc, failing)?)
}

/// The number of the call's status, what stands on out, and what stands on err, with a bar between any two.
/// The source is in the file `f.raml`, and the data in `d`. Each put takes one byte.
pub(crate) fn outcome(
    alloc: Global,
    words: &[&str],
    source: &str,
    data: &str,
    faults: Faults<'_>,
) -> Result<String, Fail> {
    let mut store = store_of(alloc, source.as_bytes(), data.as_bytes(), faults.reads)?;
    let mut out = narrow_sink(alloc, faults.puts)?;
    let mut err = narrow_sink(alloc, faults.lines)?;
    let status = raml(alloc, words, &mut store, &mut out, &mut err);
    let mut text = String::new(alloc);
    write!(text, "{}", status.code())?;
    for bytes in [out.bytes(), err.bytes()] {
        match std::str::from_utf8(bytes) {
            Ok(written) => write!(text, "|{written}")?,
            Err(_) => return Err(Fail::from("no text is written")),
        }
    }
    Ok(text)
}
