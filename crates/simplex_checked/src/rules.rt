// Rules of the entering column.
ghost use Rattle.std.specs.Prelude.{◌<◌, ◌*ℤ◌, ◌≤ℤ◌, ◌<ℤ◌, ◌↔◌, ℕ, pos, length, slice_index_or, IfSome, IfNone, IsTrue};
ghost use Rattle.frac128.specs.Values.{numerator, denominator};
ghost use Rattle.frac128.specs.Nought.{nought};
ghost use Rattle.simplex_checked.specs.Rules.{least_pick, greatest_pick, Picks};

use frac128::Frac;

/// The least column of positive gain.
pub fn least_column(gains: &[Frac]) -> Option<usize>
    ensures some { IfSome result (λ c. (c < length gains.now) × (pos 0 <ℤ numerator (slice_index_or gains.now c nought))) }
    ensures none { IfNone result ((c : ℕ) → c < length gains.now → numerator (slice_index_or gains.now c nought) ≤ℤ pos 0) }
    ensures picks { Picks least_pick gains.now result }
{
    for c in 0..gains.len() {
        if gains[c].num() > 0 {
            return Some(c);
        }
    }
    None
}

/// Whether a fraction is greater than another.
fn exceeds(x: &Frac, y: &Frac) -> bool
    ensures { IsTrue result ↔ ((numerator y.now *ℤ pos (denominator x.now)) <ℤ (numerator x.now *ℤ pos (denominator y.now))) }
{
    x > y
}

/// Where some gain is positive, the least of the columns that have the greatest gain.
pub fn greatest_column(gains: &[Frac]) -> Option<usize>
    ensures some { IfSome result (λ c. (c < length gains.now) × (pos 0 <ℤ numerator (slice_index_or gains.now c nought))) }
    ensures none { IfNone result ((c : ℕ) → c < length gains.now → numerator (slice_index_or gains.now c nought) ≤ℤ pos 0) }
    ensures picks { Picks greatest_pick gains.now result }
{
    let mut greatest = None;
    let mut most = Frac::zero();
    for c in 0..gains.len() {
        let gain = gains[c];
        if exceeds(&gain, &most) {
            greatest = Some(c);
            most = gain;
        }
    }
    greatest
}
