// What can be wrong with a certificate.
use cost_free::Task;
use smallvec::SmallVec;
use std::alloc::AllocError;

/// The first fault of a certificate. `block` is the number of a block, `path` leads to a form of a
/// function of its group, and `index` is the number of a condition there.
#[derive(Debug, Drop)]
pub enum CertFault {
    /// The head or a block is not as the schedule wants it, or a list, a position or a number is out of
    /// place.
    Shape {
        block: usize,
    },
    /// A condition is not met.
    Fails {
        block: usize,
        path: SmallVec<u32, 8>,
        index: usize,
    },
    /// A total of a condition does not fit 128 bits.
    Leaves {
        block: usize,
        path: SmallVec<u32, 8>,
        index: usize,
    },
    /// A context or a type has more than 2000 indices.
    TooLarge {
        task: Task,
    },
    NoMemory,
}

impl From<AllocError> for CertFault {
    fn from(error: AllocError) -> CertFault {
        CertFault::NoMemory
    }
}
