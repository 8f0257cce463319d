// Where files are left.
ghost use Rattle.std.specs.Prelude.{◌≡◌, ◌≢◌, ◌≤◌, ℕ, false, Option, None, Some, IfSome, OnOk, OnErr, IsErrOf};
ghost use Rattle.raml_io.specs.Faults.{Rose};
ghost use Rattle.raml_io.specs.Files.{Files};
ghost use Rattle.explain_files.specs.Shelves.{with_file};

use std::alloc::{AllocError, Global};

/// Why a file was not left.
#[derive(Clone, Copy, Debug, PartialEq, Eq)]
pub enum ShelfFault {
    /// A file of that name is there, and is not to be written over.
    Taken,
    /// The file could not be written. The shelf counted it.
    Failed,
    /// No memory was left. This is no fault of the shelf.
    NoMemory,
}

impl From<AllocError> for ShelfFault {
    ghost use Rattle.explain_files.specs.declared.shelf.ShelfFault.TheVariants.{NoMemory};

    ghost from_gives = { λ _ e. e ≡ NoMemory };

    fn from(_: AllocError) -> Self {
        ShelfFault::NoMemory
    }
}

/// Files that are left by name, each whole or not at all.
pub trait Shelf {
    /// What each name holds, where that is told.
    ghost holds: { Self → Option Files };

    /// How often a file could not be written.
    ghost faults: { Self → ℕ };

    /// Leaves a file of that name with these bytes. Where there is one already, it is written over if `over` is set, and
    /// otherwise stays as it is.
    fn leave(
        &mut self,
        alloc: Global,
        name: &str,
        bytes: &[u8],
        over: bool,
    ) -> Result<(), ShelfFault>
        ensures left { IfSome (holds self.old) (λ files. OnOk result (holds self.new ≡ Some (with_file name.now bytes.now files))) }
        ensures fresh { IfSome (holds self.old) (λ files. OnOk result (over ≡ false → files name.now ≡ None)) }

        // Otherwise no file changes: there is one of that name, or the fault was counted. The count never falls.
        ensures kept { IfSome (holds self.old) (λ files. OnErr result (holds self.new ≡ Some files)) }
        ensures taken { IfSome (holds self.old) (λ files. IsErrOf result ShelfFault.Taken → files name.now ≢ None) }
        ensures careful { IsErrOf result ShelfFault.Taken → over ≡ false }
        ensures failed { IsErrOf result ShelfFault.Failed → Rose (faults self.old) (faults self.new) }
        ensures later { faults self.old ≤ faults self.new };
}
