//! Rules of the entering column.
ghost use Rattle.std.specs.Prelude.{◌≡◌, ◌<◌, ◌≤ℤ◌, ◌<ℤ◌, ℕ, length, pos, slice_index_or, IfSome, IfNone, IfOk, [], ◌∷◌};
ghost use Rattle.frac128.specs.Values.{numerator};
ghost use Rattle.frac128.specs.Nought.{nought};

use frac128::Frac;

/// The least column with gain.
pub(crate) fn least_column(gains: &[Frac]) -> Option<usize>
    ensures some { IfSome result (λ c. (c < length gains.now) × (pos 0 <ℤ numerator (slice_index_or gains.now c nought))) }
    ensures none { IfNone result ((c : ℕ) → c < length gains.now → numerator (slice_index_or gains.now c nought) ≤ℤ pos 0) }
{
    for c in 0..gains.len() {
        if gains[c].num() > 0 {
            return Some(c);
        }
    }
    None
}

/// The least of the columns with the greatest gain.
pub(crate) fn greatest_column(gains: &[Frac]) -> Option<usize>
    ensures some { IfSome result (λ c. (c < length gains.now) × (pos 0 <ℤ numerator (slice_index_or gains.now c nought))) }
    ensures none { IfNone result ((c : ℕ) → c < length gains.now → numerator (slice_index_or gains.now c nought) ≤ℤ pos 0) }
{
    let mut greatest = None;
    let mut most = Frac::zero();
    for c in 0..gains.len() {
        if gains[c].num() > 0 && (greatest.is_none() || gains[c] > most) {
            greatest = Some(c);
            most = gains[c];
        }
    }
    greatest
}
