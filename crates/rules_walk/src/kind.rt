// Kinds of number.
ghost use Rattle.std.specs.Prelude.{◌≡◌, ◌*◌, IfOk, OnOk};
ghost use Rattle.rules_spec.specs.Numbers.{Numbers};

use std::alloc::{AllocError, Global};

/// A kind of number that stands in annotations: sums, natural multiples, numbers, and prices that are
/// taken.
pub trait Kind: Sized + Drop {
    ghost kind: { Numbers Self };

    /// Nothing.
    fn none(alloc: Global) -> Self
        ensures { result ≡ kind.none };

    /// A number times a scale.
    fn number(alloc: Global, n: u32, scale: u128) -> Self
        ensures { result ≡ kind.number (n * scale) };

    /// The same number once more.
    fn copy(&self, alloc: Global) -> Result<Self, AllocError>
        ensures { IfOk result (λ copy. copy ≡ self.now) };

    /// A multiple of another number is added.
    fn add(&mut self, times: u64, other: &Self) -> Result<(), AllocError>
        ensures { OnOk result (self.new ≡ kind.plus self.old (kind.times times other.now)) };

    /// A multiple of it.
    fn multiple(&self, alloc: Global, times: u128) -> Result<Self, AllocError>
        ensures { IfOk result (λ multiple. multiple ≡ kind.times times self.now) };

    /// The price of so many, at a scale, is added.
    fn raise(&mut self, n: u32, scale: u128)
        ensures { self.new ≡ kind.plus (kind.number (n * scale)) self.old };

    /// The price of so many, at a scale, is taken.
    fn lower(&mut self, n: u32, scale: u128)
        ensures { self.new ≡ kind.less (n * scale) self.old };
}
