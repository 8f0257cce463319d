// How a bound stands to another one.
ghost use Rattle.base_poly.specs.Poly.{den_of, terms_of, IsPoly};
ghost use Rattle.annot_types.specs.Held.{Bound};
ghost use Rattle.bound_compare.specs.Compare.{sum_of};
ghost use Rattle.bound_infer.specs.Told.{claim_of, IsWritten};
ghost use Rattle.analysis_report.specs.Comparison.{AreRelated, AreCompared};

use base_poly::Poly;
use bound_compare::laws::relations_promise;
use bound_compare::{Compared, Relation, compare};
use bound_infer::Line;

/// What is told of both compared.
pub(crate) fn compared(first: &Line, second: &Line) -> Compared
    requires first { IsWritten first.now }
    requires second { IsWritten second.now }
    ensures { AreCompared (claim_of first.now) (claim_of second.now) result }
{
    match first {
        Line::Bound(bound) => compared_bound(bound, second),
        Line::NoBound | Line::Calls(_) => Compared::NoBound,
    }
}

fn compared_bound(first: &Poly, second: &Line) -> Compared
    requires first { IsPoly first.now }
    requires second { IsWritten second.now }
    ensures { AreCompared (Bound (den_of first.now) (terms_of first.now)) (claim_of second.now) result }
{
    match second {
        Line::Bound(bound) => Compared::Bounds(relation(first, bound)),
        Line::NoBound | Line::Calls(_) => Compared::NoBound,
    }
}

// The relation of two bounds, with what it promises.
fn relation(first: &Poly, second: &Poly) -> Relation
    requires first { IsPoly first.now }
    requires second { IsPoly second.now }
    ensures { AreRelated result (sum_of first.now) (sum_of second.now) }
{
    relations_promise();
    compare(first, second)
}
