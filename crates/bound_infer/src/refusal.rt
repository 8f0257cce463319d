// Why bounds are not found, and why a certificate is not verified.
use crate::leaves::LeavesAt;
use cert_check::CertFault;
use constraint_gen::What;
use cost_free::Task;

/// Why an analysis has no certificate: the first place at which its course stops.
#[derive(Debug, Drop)]
pub enum InferFault {
    /// Of the task's indices, unknowns or rows there are more than 2000.
    TooLarge { task: Task, what: What },
    /// A number leaves 128 bits.
    Leaves(LeavesAt),
    NoMemory,
}

/// Why a certificate is not verified: its first fault.
#[derive(Debug, Drop)]
pub enum VerifyFault {
    /// The check finds a fault, which is no want of memory.
    Cert(CertFault),
    /// The vector of this refuted block does not refute its task.
    NotRefuted { block: usize },
    /// Of the task of a refuted block there are more than 2000 indices, unknowns or rows.
    TooLarge { task: Task, what: What },
    /// A number of its system, or a total of the check of its vector, leaves 128 bits.
    Leaves(LeavesAt),
    NoMemory,
}
