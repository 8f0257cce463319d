// Polynomials at sizes.
ghost use Rattle.std.specs.Prelude.{◌≡◌, ◌≤◌, ◌<◌, ◌^◌, ℕ, All, SomeIff};
ghost use Rattle.base_poly.specs.Plain.{degrees};
ghost use Rattle.base_poly.specs.Poly.{magnitudes, IsPoly};
ghost use Rattle.poly_point.specs.Point.{AreLow};
ghost use Rattle.explain_sizes.specs.Counts.{worth_at, whole_at};
ghost use Rattle.explain_sizes.specs.Read.{all_sizes};
ghost use Rattle.explain_sizes.specs.Shares.{IsProper, Holds};

use crate::counted::tuple_counted;
use crate::share::{nothing, one, sum, times};
use crate::share_type::Share;
use crate::size::Size;
use base_poly::{Poly, Tuple};

/// The whole part of the polynomial's value where each argument has the sizes, or None exactly where
/// it is more than 2^127.
pub fn value_at(poly: &Poly, sizes: &[Size]) -> Option<u128>
    requires poly { IsPoly poly.now }
    requires low { AreLow poly.now }
    ensures { SomeIff result (whole_at poly.now (all_sizes sizes.now) ≤ 2 ^ 127) (whole_at poly.now (all_sizes sizes.now)) }
{
    let share = terms_counted(poly.den.unsigned_abs(), &poly.terms, sizes)?;
    Some(share.whole)
}

// The sum over the terms: each coefficient times what its tuple counts.
fn terms_counted(den: u128, terms: &[(Tuple, i128)], sizes: &[Size]) -> Option<Share>
    requires positive { 0 < den }
    requires den { den ≤ 2 ^ 127 }
    requires low { All (λ t. degrees t.0 ≤ 4) terms.now }
    ensures proper { IsProper den result }
    ensures holds { Holds den (worth_at (magnitudes terms.now) (all_sizes sizes.now)) result }
{
    let mut so_far = nothing();
    for (tuple, number) in terms {
        let coefficient = times(den, one(den), number.unsigned_abs());
        let term = tuple_counted(den, coefficient, tuple.parts(), sizes);
        so_far = sum(den, so_far, term);
    }
    so_far
}
