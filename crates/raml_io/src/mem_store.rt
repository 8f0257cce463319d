// Files in memory.
ghost use Rattle.std.specs.Prelude.{◌≡◌, ◌≤◌, ◌↔◌, Some, List, ℕ, take, IfOk, OnOk, IfErr, IsErrOf, vec_len};
ghost use Rattle.std.specs.Option.{option_copied};
ghost use Rattle.raml_io.specs.Faults.{Rose};
ghost use Rattle.raml_io.specs.Files.{IsFront};
ghost use Rattle.raml_io.specs.MemStore.{listed, held, new_store, FailsRead, after_read, after_refusal};

use crate::store::{Store, StoreFault};
use std::alloc::{AllocError, Global};
use std::marker::Model;

/// A store in memory, which fails at chosen reads.
#[derive(Drop)]
pub struct MemStore {
    files: Vec<(String, Vec<u8>)>,
    failing: Vec<u64>,
    reads: u64,
    faults: u64,
}

impl Model for MemStore {
    ghost use Rattle.raml_io.specs.MemStore.{StoreState, listed};

    ghost Value = { StoreState };

    ghost view = { λ s. record {
      files = listed s.files.items;
      failing = s.failing.items;
      reads = s.reads;
      faults = s.faults;
    } };
}

impl MemStore {
    /// Holds these files. Where a name is listed twice, its first file counts.
    ///
    /// Reads are numbered from 0, up to `u64::MAX`, where the number stands. A read whose number is
    /// in `failing` fails, and so does one of a name that is not held.
    pub fn new(files: Vec<(String, Vec<u8>)>, failing: Vec<u64>) -> MemStore
        ensures { result ≡ new_store (listed files.items) failing.items }
    {
        MemStore {
            files,
            failing,
            reads: 0,
            faults: 0,
        }
    }
}

impl Store for MemStore {
    ghost holds = { λ s. Some (held s.files) };

    ghost faults = { λ s name. s.faults };

    fn read(&mut self, alloc: Global, name: &str, most: u64) -> Result<Vec<u8>, StoreFault>
        ensures fails { IsErrOf result StoreFault.Failed ↔ FailsRead self.old name.now }
        ensures front { IfOk result (λ bytes. IsFront (held self.old.files) name.now most bytes.items) }
        ensures ok { OnOk result (self.new ≡ after_read self.old) }
        ensures err { IfErr result (λ fault. self.new ≡ after_refusal fault self.old) }
        ensures failed { IsErrOf result StoreFault.Failed → Rose self.old.faults self.new.faults }
        ensures later { self.old.faults ≤ self.new.faults }
    {
        let number = self.reads;
        self.reads = number.saturating_add(1);
        let content = if self.failing.contains(&number) {
            None
        } else {
            content_of(&self.files, name)
        };
        match content {
            Some(content) => Ok(front_of(alloc, content, most)?),
            None => {
                self.faults = self.faults.saturating_add(1);
                Err(StoreFault::Failed)
            }
        }
    }
}

// What the first file of that name holds.
fn content_of<'a>(files: &'a [(String, Vec<u8>)], name: &str) -> Option<&'a [u8]>
    ensures { option_copied result ≡ held (listed files.now) name.now }
{
    for (key, content) in files {
        if key.as_str() == name {
            return Some(content);
        }
    }
    None
}

// The first bytes.
fn front_of(alloc: Global, content: &[u8], most: u64) -> Result<Vec<u8>, AllocError>
    ensures { IfOk result (λ bytes. bytes.items ≡ take most content.now) }
{
    let count = (content.len() as u64).min(most) as usize;
    Vec::from_slice(alloc, &content[..count])
}
