// The degrees of the targets of a type, without the targets.
ghost use Rattle.std.specs.Prelude.{◌≡◌, ◌<◌, ◌≤◌, ◌+◌, [], ◌∷◌, ◌++◌, map, flat_map, filter, nat_eq, length, IfOk, OnOk, IsErrOf};
ghost use Rattle.std.specs.List.{range_with_len};
ghost use Rattle.raml_syntax.specs.Read.{ty_of};
ghost use Rattle.base_poly.specs.Plain.{degrees, capped};
ghost use Rattle.base_poly.specs.Indices.{tuples_up_to, index_list};
ghost use Rattle.cost_free.specs.Target.{targets, degree_of};
ghost use Rattle.cost_free.specs.Joining.{joined_of};

use crate::joined::Joined;
use crate::target::joined_targets;
use base_poly::{IndexFault, degrees};
use raml_syntax::Ty;
use std::alloc::{AllocError, Global};
use std::slice;

/// The degrees of all targets of a type at degree `d`, in the order of these, each 2^32 - 1 where it is
/// greater.
///
/// `TooMany` exactly where the type has more indices than `most` of degree at most `d`.
pub fn target_degrees(alloc: Global, ty: &Ty, d: u8, most: usize) -> Result<Vec<u32>, IndexFault>
    ensures all { IfOk result (λ found. found.items ≡ map (λ t. capped (degree_of t)) (targets (ty_of ty.now) d)) }
    ensures few { OnOk result (length (index_list (ty_of ty.now ∷ []) d) ≤ most) }
    ensures many { IsErrOf result IndexFault.TooMany → most < length (index_list (ty_of ty.now ∷ []) d) }
{
    let units = degrees(alloc, slice::from_ref(ty), d, most)?;
    Ok(all_degrees(alloc, ty, d, &units)?)
}

// Those of the type's tuples in their order, and those of the joined targets behind them.
fn all_degrees(alloc: Global, ty: &Ty, d: u8, units: &[u8]) -> Result<Vec<u32>, AllocError>
    requires { units.now ≡ map degrees (tuples_up_to (ty_of ty.now ∷ []) d) }
    ensures { IfOk result (λ found. found.items ≡ map (λ t. capped (degree_of t)) (targets (ty_of ty.now) d)) }
{
    let joined = joined_targets(alloc, ty, d)?;
    let mut found = Vec::with_capacity(alloc, units.len())?;
    append_ascending(&mut found, units, d)?;
    append_joined(alloc, &mut found, &joined)?;
    Ok(found)
}

// Appends those of each degree from 0 on.
fn append_ascending(found: &mut Vec<u32>, units: &[u8], d: u8) -> Result<(), AllocError>
    ensures { OnOk result (found.new.items ≡ found.old.items ++ flat_map
        (λ g. filter (λ n. nat_eq n g) units.now) (range_with_len 0 (d + 1))) }
{
    for degree in 0..u32::from(d) + 1 {
        append_equal(found, units, degree)?;
    }
    Ok(())
}

// Appends those of this degree.
fn append_equal(found: &mut Vec<u32>, units: &[u8], degree: u32) -> Result<(), AllocError>
    ensures { OnOk result (found.new.items ≡ found.old.items ++ filter (λ n. nat_eq n degree) units.now) }
{
    for unit in units {
        if u32::from(*unit) == degree {
            found.push(u32::from(*unit))?;
        }
    }
    Ok(())
}

// Appends those of the joined targets.
fn append_joined(
    alloc: Global,
    found: &mut Vec<u32>,
    joined: &[Joined<'_>],
) -> Result<(), AllocError>
    ensures { OnOk result (found.new.items ≡ found.old.items ++ map (λ j. capped (degree_of (joined_of j).target)) joined.now) }
{
    for one in joined {
        found.push(one.tuple_degree(alloc)?)?;
    }
    Ok(())
}
