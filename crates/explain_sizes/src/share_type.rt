// Shares.

/// A number over a denominator: its whole part, which is at most 2^127, and the rest. No share
/// stands for each number whose whole part is greater.
#[derive(Clone, Copy, Debug)]
pub struct Share {
    pub whole: u128,
    pub rest: u128,
}
