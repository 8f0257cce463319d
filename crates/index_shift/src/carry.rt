// How the tuples of a variable are carried.
ghost use Rattle.std.specs.Prelude.{◌≡◌, ◌≤◌, [], ◌∷◌, map, IfOk};
ghost use Rattle.raml_syntax.specs.Read.{ty_of};
ghost use Rattle.raml_syntax.specs.Tree.{Type'};
ghost use Rattle.base_poly.specs.Plain.{deg};
ghost use Rattle.base_poly.specs.Indices.{IsIndex};
ghost use Rattle.base_poly.specs.Read.{index_of};
ghost use Rattle.index_shift.specs.Maps.{opens, leaves, joins};
ghost use Rattle.index_shift.specs.Read.{carry_of, CanCarry};

use crate::parts::index_parts;
use base_poly::{Index, Tuple, multiply};
use raml_syntax::Ty;
use std::alloc::{AllocError, Global};

/// How a tuple is carried.
#[derive(Clone, Copy)]
pub enum Carry<'a> {
    /// The variable is taken apart, and has this type.
    Open(&'a Ty),
    /// The variable leaves.
    Leave,
    /// The variable and the one behind it become one.
    Join,
}

impl<'a> Carry<'a> {
    /// The tuples to which a tuple is carried, and how often each counts.
    pub fn targets(&self, alloc: Global, tuple: &Tuple) -> Result<Vec<(Tuple, u64)>, AllocError>
        requires { CanCarry self.now tuple.now }
        ensures { IfOk result (λ found. found.items ≡ carry_of self.now tuple.now) }
    {
        let parts = tuple.parts();
        match self {
            Carry::Open(ty) => open(alloc, *ty, &parts[0]),
            Carry::Leave => leave(alloc, &parts[0]),
            Carry::Join => join(alloc, &parts[0], &parts[1]),
        }
    }
}

// The parts of the index.
fn open(alloc: Global, ty: &Ty, index: &Index) -> Result<Vec<(Tuple, u64)>, AllocError>
    ensures { IfOk result (λ found. found.items ≡ opens (ty_of ty.now) (index_of index.now ∷ [])) }
{
    let parts = index_parts(alloc, ty, index)?;
    each_once(alloc, parts)
}

// Each of the tuples counts once.
fn each_once(alloc: Global, tuples: Vec<Tuple>) -> Result<Vec<(Tuple, u64)>, AllocError>
    ensures { IfOk result (λ found. found.items ≡ map (λ t. (t, 1)) tuples.items) }
{
    let mut found = Vec::new(alloc);
    for tuple in tuples {
        found.push((tuple, 1))?;
    }
    Ok(found)
}

// Nothing, where the index has degree 0.
fn leave(alloc: Global, index: &Index) -> Result<Vec<(Tuple, u64)>, AllocError>
    requires { deg (index_of index.now) ≤ 4 }
    ensures { IfOk result (λ found. found.items ≡ leaves (index_of index.now ∷ [])) }
{
    let mut found = Vec::new(alloc);
    if index.degree() == 0 {
        found.push((Tuple::new(Vec::new(alloc)), 1))?;
    }
    Ok(found)
}

// Each term of the product of both indices.
fn join(alloc: Global, first: &Index, second: &Index) -> Result<Vec<(Tuple, u64)>, AllocError>
    requires one_type { (A : Type') × IsIndex (index_of first.now) A × IsIndex (index_of second.now) A }
    requires low { (deg (index_of first.now) ≤ 4) × (deg (index_of second.now) ≤ 4) }
    ensures { IfOk result (λ found. found.items ≡ joins (index_of first.now ∷ (index_of second.now ∷ []))) }
{
    let mut found = Vec::new(alloc);
    let terms = multiply(alloc, first, second)?;
    for (index, times) in terms.iter() {
        found.push((alone(alloc, index)?, *times))?;
    }
    Ok(found)
}

// The tuple of an index alone.
fn alone(alloc: Global, index: &Index) -> Result<Tuple, AllocError>
    ensures { IfOk result (λ made. made ≡ index_of index.now ∷ []) }
{
    Ok(Tuple::new(vec![in alloc; index.copy(alloc)?]?))
}
