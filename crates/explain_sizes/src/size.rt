// Sizes of values.

/// The sizes that a value has by its type.
#[derive(Debug, Drop)]
pub enum Size {
    /// Those of a number or of a truth value, which has none.
    Unit,
    /// Those of the parts of a pair.
    Pair(Box<Size>, Box<Size>),
    /// How many elements a list or a tree has at most, and the sizes of each.
    List(u64, Box<Size>),
    /// Those of what an option holds.
    Opt(Box<Size>),
}
