// Measured runs.

/// A run, and the bound at its arguments.
#[derive(Clone, Copy, Debug)]
pub struct Mark<'a> {
    /// How many elements the arguments have.
    pub size: u32,
    /// What the arguments are like.
    pub kind: &'a str,
    /// What the run cost.
    pub cost: u64,
    /// The bound at its arguments, where there is one.
    pub bound: Option<u128>,
}
