// The order of joined targets.
ghost use Rattle.std.specs.Prelude.{◌≡◌, ◌≤◌, ◌∷◌, ◌++◌, length, take, drop, IfOk, OnOk};
ghost use Rattle.std.specs.Ordering.{ordering_then, nat_cmp};
ghost use Rattle.std.specs.Cmp.Lexicographic.{slice_cmp};
ghost use Rattle.base_poly.specs.Plain.{order as index_order};
ghost use Rattle.base_poly.specs.Read.{index_of};
ghost use Rattle.cost_free.specs.Target.{joined_order, put, in_order};
ghost use Rattle.cost_free.specs.Joining.{joined_of, all_joined};

use crate::joined::Joined;
use std::alloc::{AllocError, Global};
use std::cmp::Ordering;

// Of one degree: by the list index, then by the places.
fn order_of_alike(one: &Joined<'_>, other: &Joined<'_>) -> Ordering
    ensures { result ≡ ordering_then (index_order (index_of one.now.list) (index_of other.now.list))
        (slice_cmp nat_cmp one.now.places.items other.now.places.items) }
{
    one.list
        .cmp(&other.list)
        .then(one.places.as_slice().cmp(other.places.as_slice()))
}

// By degree, then by the list index, then by the places.
fn order(one: &Joined<'_>, other: &Joined<'_>) -> Ordering
    ensures { result ≡ joined_order (joined_of one.now) (joined_of other.now) }
{
    match one.degree.cmp(&other.degree) {
        Ordering::Less => Ordering::Less,
        Ordering::Equal => order_of_alike(one, other),
        Ordering::Greater => Ordering::Greater,
    }
}

// How many of those in order stand before the target.
fn place_among(ordered: &[Joined<'_>], target: &Joined<'_>) -> usize
    ensures low { result ≤ length ordered.now }
    ensures place { all_joined (take result ordered.now)
        ++ joined_of target.now ∷ all_joined (drop result ordered.now) ≡ put (joined_of target.now) (all_joined ordered.now) }
{
    let mut place = 0;
    for other in ordered {
        if order(target, other) == Ordering::Less {
            return place;
        }
        place += 1;
    }
    place
}

// Puts the target among those in order.
fn put<'a>(ordered: &mut Vec<Joined<'a>>, target: Joined<'a>) -> Result<(), AllocError>
    ensures { OnOk result (all_joined ordered.new.items ≡ put (joined_of target.entry) (all_joined ordered.old.items)) }
{
    let place = place_among(ordered, &target);
    ordered.insert(place, target)?;
    Ok(())
}

/// The joined targets in order.
pub fn in_order<'a>(alloc: Global, targets: Vec<Joined<'a>>) -> Result<Vec<Joined<'a>>, AllocError>
    ensures { IfOk result (λ ordered. all_joined ordered.items ≡ in_order (all_joined targets.entry.items)) }
{
    let mut rest = targets;
    let mut ordered = Vec::with_capacity(alloc, rest.len())?;
    while let Some(target) = rest.pop() {
        put(&mut ordered, target)?;
    }
    Ok(ordered)
}
