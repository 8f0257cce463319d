//! Files and streams in memory for whole calls of the program.
use raml_io::{MemSink, MemStore};
use std::alloc::{AllocError, Global};

/// A store that holds two files: `f.raml`, and `d` with data; its attempts with these numbers fail.
pub(crate) fn store_of(
    alloc: Global,
    source: &[u8],
    data: &[u8],
    failing: &[u64],
) -> Result<MemStore, AllocError> {
    store_with(alloc, &[("f.raml", source), ("d", data)], failing)
}

// A store that holds these files.
fn store_with(
    alloc: Global,
    files: &[(&str, &[u8])],
    failing: &[u64],
) -> Result<MemStore, AllocError> {
    let mut held = Vec::new(alloc);
    for (name, content) in files {
        held.push((
            String::from_str(alloc, *name)?,
            Vec::from_slice(alloc, *content)?,
        ))?;
    }
    Ok(MemStore::new(held, Vec::from_slice(alloc, failing)?))
}

/// A sink with ample room, whose attempts with these numbers fail.
pub(crate) fn sink_of(alloc: Global, failing: &[u64]) -> Result<MemSink, AllocError> {
    MemSink::new(alloc, 100_000, 10, Vec::from_slice(alloc, failing)?)
}
