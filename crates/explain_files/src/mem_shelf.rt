// Files in memory.
ghost use Rattle.std.specs.Prelude.{◌≡◌, ◌≢◌, ◌≤◌, ◌++◌, ℕ, true, false, Some, None, List, OnOk, IfOk, IfErr, IsErrOf, is_some};
ghost use Rattle.raml_io.specs.Faults.{Rose};
ghost use Rattle.raml_io.specs.MemStore.{listed, held};
ghost use Rattle.explain_files.specs.Shelves.{with_file};
ghost use Rattle.explain_files.specs.MemShelf.{new_shelf, after_leaving, after_fault, IsTaken, FailsWrite};

use crate::shelf::{Shelf, ShelfFault};
use std::alloc::{AllocError, Global};
use std::marker::Model;

/// A shelf in memory, which fails at chosen writes.
#[derive(Drop)]
pub struct MemShelf {
    files: Vec<(String, Vec<u8>)>,
    failing: Vec<u64>,
    writes: u64,
    faults: u64,
}

impl Model for MemShelf {
    ghost use Rattle.raml_io.specs.MemStore.{listed};
    ghost use Rattle.explain_files.specs.MemShelf.{ShelfState};

    ghost Value = { ShelfState };

    ghost view = { λ s. record {
      files = listed s.files.items;
      failing = s.failing.items;
      writes = s.writes;
      faults = s.faults;
    } };
}

impl MemShelf {
    /// Has these files. Of two with one name the first counts.
    ///
    /// Writes are numbered from 0, up to `u64::MAX`, where the number stands. One whose number is in `failing` fails.
    pub fn new(files: Vec<(String, Vec<u8>)>, failing: Vec<u64>) -> MemShelf
        ensures { result ≡ new_shelf (listed files.items) failing.items }
    {
        MemShelf {
            files,
            failing,
            writes: 0,
            faults: 0,
        }
    }

    /// The names of its files, and what each holds, the one that was left last first.
    pub fn files(&self) -> &[(String, Vec<u8>)]
        ensures { listed result.now ≡ self.now.files }
    {
        &self.files
    }
}

impl Shelf for MemShelf {
    ghost holds = { λ s. Some (held s.files) };

    ghost faults = { λ s. s.faults };

    fn leave(
        &mut self,
        alloc: Global,
        name: &str,
        bytes: &[u8],
        over: bool,
    ) -> Result<(), ShelfFault>
        ensures left { OnOk result (self.new ≡ after_leaving self.old name.now bytes.now) }
        ensures fault { IfErr result (λ fault. self.new ≡ after_fault fault self.old) }
        ensures taken { IsErrOf result ShelfFault.Taken → IsTaken self.old name.now over }
        ensures failing { IsErrOf result ShelfFault.Failed → FailsWrite self.old }
        ensures fresh { OnOk result (IsTaken self.old name.now over → ⊥) }
        ensures failed { IsErrOf result ShelfFault.Failed → Rose self.old.faults self.new.faults }
        ensures later { self.old.faults ≤ self.new.faults }
    {
        let number = self.writes;
        self.writes = number.saturating_add(1);
        if !over && has_file(&self.files, name) {
            return Err(ShelfFault::Taken);
        }
        if self.failing.contains(&number) {
            self.faults = self.faults.saturating_add(1);
            return Err(ShelfFault::Failed);
        }
        let name = String::from_str(alloc, name)?;
        let bytes = Vec::from_slice(alloc, bytes)?;
        match self.files.insert(0, (name, bytes)) {
            Ok(()) => Ok(()),
            Err(_) => Err(ShelfFault::NoMemory),
        }
    }
}

// Whether there is a file of that name.
fn has_file(files: &[(String, Vec<u8>)], name: &str) -> bool
    ensures { result ≡ is_some (held (listed files.now) name.now) }
{
    for (key, _) in files {
        if key.as_str() == name {
            return true;
        }
    }
    false
}
