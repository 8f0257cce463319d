// How the verification of a certificate ends.

/// How the verification of a certificate for a source ends.
#[derive(Clone, Copy, Debug, PartialEq, Eq)]
pub enum Verification {
    /// The certificate holds of the source.
    Holds,
    /// It does not: a block is not the one that the source asks for, a condition fails, or a vector refutes nothing.
    Fails,
    /// There is no source or no certificate: a file is not read, the source is faulty, or the file is no certificate.
    Refused,
    /// A limit or a number of 128 bits stops the check.
    NotAnalysed,
}
