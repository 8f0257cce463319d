// Why the declared bounds of a file are not all decided.

/// Why the declared bounds of a file are not all decided: by the first of them, as its line in the file,
/// counted from 1.
#[derive(Clone, Copy, PartialEq, Eq, Debug)]
pub enum VerdictsFault {
    /// With the rows of the bound, the system of the function's group has more than 2000.
    TooLarge { line: u32 },
    /// A number leaves 128 bits.
    Leaves { line: u32 },
    NoMemory,
}
