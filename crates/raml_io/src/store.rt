// What files hold, by name.
ghost use Rattle.std.specs.Prelude.{◌≡◌, ◌≤◌, List, ℕ, Option, None, IfSome, IfOk, IsErrOf, vec_len};
ghost use Rattle.raml_io.specs.Faults.{Rose};
ghost use Rattle.raml_io.specs.Files.{Files, IsFront};

use std::alloc::{AllocError, Global};

/// Why a read gave no bytes.
#[derive(Clone, Copy, Debug, PartialEq, Eq)]
pub enum StoreFault {
    /// The store failed, and counted it.
    Failed,
    /// No memory was left for the bytes. This is no fault of the store.
    NoMemory,
}

impl From<AllocError> for StoreFault {
    ghost use Rattle.raml_io.specs.declared.store.StoreFault.TheVariants.{NoMemory};

    ghost from_gives = { λ _ e. e ≡ NoMemory };

    fn from(_: AllocError) -> Self {
        StoreFault::NoMemory
    }
}

/// Files to read from, by name.
pub trait Store {
    /// What each name holds, where that is told.
    ghost holds: { Self → Option Files };

    /// How often a read of each name has failed.
    ghost faults: { Self → List ℕ → ℕ };

    /// Reads the first bytes of the file of that name, at most `most` of them.
    fn read(&mut self, alloc: Global, name: &str, most: u64) -> Result<Vec<u8>, StoreFault>
        ensures short { IfOk result (λ bytes. vec_len bytes ≤ most) }

        // Where it is told what the names hold, the bytes are the front of what this one holds, and
        // a name that is not held is refused.
        ensures front { IfSome (holds self.old) (λ files.
            IfOk result (λ bytes. IsFront files name.now most bytes.items)) }
        ensures missing { IfSome (holds self.old) (λ files.
            files name.now ≡ None → IsErrOf result StoreFault.Failed) }
        ensures kept { holds self.new ≡ holds self.old }

        // A fault is counted under the name that was read. No count ever falls.
        ensures failed { IsErrOf result StoreFault.Failed →
            Rose (faults self.old name.now) (faults self.new name.now) }
        ensures later { (other : List ℕ) → faults self.old other ≤ faults self.new other };
}
