// TargetList.
ghost use Rattle.std.specs.Prelude.{◌≡◌, ◌<◌, ◌≤◌, [], ◌∷◌, ◌++◌, map, length, slice_get, IfOk, OnOk, IsErrOf};
ghost use Rattle.raml_syntax.specs.Read.{ty_of};
ghost use Rattle.base_poly.specs.Indices.{index_list};
ghost use Rattle.cost_free.specs.Target.{targets};
ghost use Rattle.cost_free.specs.Target as plain;
ghost use Rattle.cost_free.specs.Joining.{all_joined};

use crate::join::all_joined;
use crate::joined::Joined;
use crate::order::in_order;
use base_poly::{IndexFault, Tuple, indices};
use raml_syntax::Ty;
use std::alloc::{AllocError, Global};
use std::marker::Model;
use std::slice;

/// What a cost-free signature is to leave of a result: the number 1 at each of these tuples, which
/// have one index. Contracts see it as the list of its tuples.
#[derive(Debug, Drop)]
pub struct Target {
    tuples: Vec<Tuple>,
}

impl Model for Target {
    ghost use Rattle.std.specs.Prelude.{List};
    ghost use Rattle.std.specs.Coded.{coded_list};
    ghost use Rattle.base_poly.specs.Plain.{Plain};
    ghost use Rattle.base_poly.specs.Stored.{coded_plain};

    ghost Value = { List (List Plain) };

    ghost coded = { coded_list (coded_list coded_plain) };

    ghost view = { λ target. target.tuples.items };
}

impl Target {
    /// The tuples that have the number 1.
    pub fn tuples(&self) -> &[Tuple]
        ensures { result.now ≡ self.now }
    {
        &self.tuples
    }
}

/// The numbered targets of a result type: first one for each tuple of the type, in their order, and
/// then the joined ones. Each is made when it is asked for; contracts see the list of them.
#[derive(Drop)]
pub struct TargetList<'a> {
    units: Vec<Tuple>,
    joined: Vec<Joined<'a>>,
}

impl<'a> Model for TargetList<'a> {
    ghost use Rattle.std.specs.Prelude.{List, [], ◌∷◌, ◌++◌, map};
    ghost use Rattle.std.specs.Coded.{coded_list};
    ghost use Rattle.base_poly.specs.Plain.{Plain};
    ghost use Rattle.base_poly.specs.Stored.{coded_plain};
    ghost use Rattle.cost_free.specs.Target as plain;
    ghost use Rattle.cost_free.specs.Joining.{all_joined};

    ghost Value = { List (List (List Plain)) };

    ghost coded = { coded_list (coded_list (coded_list coded_plain)) };

    ghost view = { λ targets. map (λ t. t ∷ []) targets.units.items ++ map
        (λ (j : plain.Joined). j.target) (all_joined targets.joined.items) };
}

impl<'a> TargetList<'a> {
    /// How many there are.
    pub fn len(&self) -> usize
        ensures { result ≡ length self.now }
    {
        self.units.len() + self.joined.len()
    }

    /// The target of this number, where there is one.
    pub fn get(&self, alloc: Global, number: usize) -> Result<Option<Target>, AllocError>
        ensures { IfOk result (λ found. found ≡ slice_get self.now number) }
    {
        if number < self.units.len() {
            let unit = self.units[number].copy(alloc)?;
            let tuples = vec![in alloc; unit]?;
            return Ok(Some(Target { tuples }));
        }
        match self.joined.get(number - self.units.len()) {
            Some(joined) => {
                let tuples = joined.tuples(alloc)?;
                Ok(Some(Target { tuples }))
            }
            None => Ok(None),
        }
    }
}

/// The numbered targets of a result type at degree `d`: first one for each tuple of the type of degree
/// at most `d`, in their order, and then the joined ones.
///
/// `TooMany` exactly where the type has more than 2000 indices of degree at most `d`.
pub fn targets<'a>(alloc: Global, ty: &'a Ty, d: u8) -> Result<TargetList<'a>, IndexFault>
    ensures all { IfOk result (λ found. found ≡ targets (ty_of ty.now) d) }
    ensures few { OnOk result (length (index_list (ty_of ty.now ∷ []) d) ≤ 2000) }
    ensures many { IsErrOf result IndexFault.TooMany → 2000 < length (index_list (ty_of ty.now ∷ []) d) }
{
    let units = indices(alloc, slice::from_ref(ty), d, 2000)?;
    Ok(all_targets(alloc, ty, d, units)?)
}

// The tuples as targets, and the joined ones behind them.
fn all_targets<'a>(
    alloc: Global,
    ty: &'a Ty,
    d: u8,
    units: Vec<Tuple>,
) -> Result<TargetList<'a>, AllocError>
    ensures { IfOk result (λ found. found ≡ map (λ t. t ∷ []) units.items ++ plain.joined_targets (ty_of ty.now) d) }
{
    let joined = joined_targets(alloc, ty, d)?;
    Ok(TargetList { units, joined })
}

/// The joined targets in order. A type of one component has none.
pub(crate) fn joined_targets<'a>(
    alloc: Global,
    ty: &'a Ty,
    d: u8,
) -> Result<Vec<Joined<'a>>, AllocError>
    ensures { IfOk result (λ found. map (λ (j : plain.Joined). j.target) (all_joined found.items) ≡ plain.joined_targets (ty_of ty.now) d) }
{
    match ty {
        Ty::Pair(..) => Ok(in_order(alloc, all_joined(alloc, ty, d)?)?),
        Ty::Int | Ty::Bool | Ty::List(_) | Ty::Tree(_) | Ty::Opt(_) => Ok(Vec::new(alloc)),
    }
}
