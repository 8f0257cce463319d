// Entries of maps.

/// One entry of a map: the number at the position `from` counts `times` at the position `to`.
///
/// Positions are places in the lists of the tuples of two contexts.
#[derive(Clone, Copy, Debug, PartialEq, Eq)]
pub struct Entry {
    pub from: u32,
    pub to: u32,
    pub times: u64,
}
