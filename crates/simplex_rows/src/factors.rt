//! What a row and a lead are multiplied by, before the one is taken from the other.

ghost use Rattle.std.specs.Prelude.{◌≡◌, pos, ◌<ℤ◌, ◌≤ℤ◌, ◌+ℤ◌, ◌*ℤ◌, unsigned_abs, IfSome};
ghost use Rattle.simplex_rows.specs.Sharing.{Shares};

use crate::dividing::{common_with, over};

/// A row is multiplied by `own` and the lead by `times`, and no number that comes of it is greater than `bound`,
/// without its sign.
#[derive(Clone, Copy, Debug)]
pub(crate) struct Factors {
    pub(crate) own: i64,
    pub(crate) times: i64,
    pub(crate) bound: i64,
}

/// The factors for a row with this number at the column that goes, and with this bound, and for a lead; or None
/// where by the bounds a number may pass 63 bits.
pub(crate) fn find_factors(
    number: i64,
    bound: i64,
    lead_den: i64,
    lead_bound: i64,
) -> Option<Factors>
    requires den { pos 0 <ℤ lead_den }
    requires bound { pos 0 ≤ℤ bound }
    requires lead { pos 0 ≤ℤ lead_bound }
    ensures shares { IfSome result (λ f. Shares number lead_den f.own f.times) }
    ensures bound { IfSome result (λ f. (f.own *ℤ bound +ℤ pos (unsigned_abs f.times) *ℤ lead_bound) ≤ℤ f.bound) }
{
    if lead_den == 1 {
        return bounded(1, number, bound, lead_bound);
    }
    let divisor = common_with(lead_den, number);
    bounded(
        over(lead_den, divisor),
        over(number, divisor),
        bound,
        lead_bound,
    )
}

/// These factors with the bound of what comes of them, or None where it passes 63 bits.
fn bounded(own: i64, times: i64, bound: i64, lead_bound: i64) -> Option<Factors>
    requires own { pos 0 <ℤ own }
    requires bound { pos 0 ≤ℤ bound }
    requires lead { pos 0 ≤ℤ lead_bound }
    ensures own { IfSome result (λ f. f.own ≡ own) }
    ensures times { IfSome result (λ f. f.times ≡ times) }
    ensures bound { IfSome result (λ f. (own *ℤ bound +ℤ pos (unsigned_abs times) *ℤ lead_bound) ≤ℤ f.bound) }
{
    let greatest = i128::from(own) * i128::from(bound)
        + i128::from(times.unsigned_abs()) * i128::from(lead_bound);
    if greatest <= i128::from(i64::MAX) {
        Some(Factors {
            own,
            times,
            bound: greatest as i64,
        })
    } else {
        None
    }
}
