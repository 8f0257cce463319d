// Products that stand at the greatest number of 128 bits where they would leave it.
ghost use Rattle.std.specs.Prelude.{◌≡◌, ◌*◌, ◌<◌, ◌^◌, IsTrue};
ghost use Rattle.rules_spec.specs.Capped.{cap};

/// The product, or the greatest number. That of numbers of 64 bits is in the range, and needs no test.
#[tactic(auto, using(crate::proofs::Short::short_product))]
pub fn capped_product(factor: u128, number: u128) -> u128
    ensures { result ≡ cap (factor * number) }
{
    if is_short(factor) && is_short(number) {
        factor * number
    } else {
        factor.saturating_mul(number)
    }
}

// Whether the number has 64 bits.
fn is_short(number: u128) -> bool
    ensures { IsTrue result → number < 2 ^ 64 }
{
    number <= u64::MAX as u128
}
