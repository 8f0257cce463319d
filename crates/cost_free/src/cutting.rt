// The tuples of joined targets.
ghost use Rattle.std.specs.Prelude.{◌≡◌, ◌<◌, length, IfOk};
ghost use Rattle.base_poly.specs.Plain.{entries_of, capped};
ghost use Rattle.base_poly.specs.Read.{index_of, plains_of};
ghost use Rattle.cost_free.specs.Target.{degree_of, last_piece};
ghost use Rattle.cost_free.specs.Joining.{joined_of};
ghost use Rattle.cost_free.specs.Read.{pieces_of};

use crate::degree::capped_degree;
use crate::fill::{append_filled, filled};
use crate::joined::Joined;
use base_poly::{Index, Tuple};
use std::alloc::{AllocError, Global};

/// The entries of a list index; none of another one.
#[tactic(auto, using(crate::proofs::Low::entries_read))]
pub fn entries(index: &Index) -> &[Index]
    ensures { plains_of result.now ≡ entries_of (index_of index.now) }
{
    match index {
        Index::List(entries) => entries,
        Index::Unit | Index::Pair(..) | Index::Opt(_) => &[],
    }
}

// All entries in the last of so many pieces.
fn last_piece<'a>(
    alloc: Global,
    count: usize,
    entries: &'a [Index],
) -> Result<Vec<&'a [Index]>, AllocError>
    requires { 0 < count }
    ensures { IfOk result (λ pieces. pieces_of pieces.items ≡ last_piece count (plains_of entries.now)) }
{
    let mut pieces: Vec<&'a [Index]> = Vec::with_capacity(alloc, count)?;
    for _ in 1..count {
        pieces.push(&[])?;
    }
    pieces.push(entries)?;
    Ok(pieces)
}

impl Joined<'_> {
    /// A tuple for each cut of the list index over the components.
    pub fn tuples(&self, alloc: Global) -> Result<Vec<Tuple>, AllocError>
        ensures { IfOk result (λ tuples. tuples.items ≡ (joined_of self.now).target) }
    {
        let mut tuples = Vec::new(alloc);
        let mut before = Vec::new(alloc);
        append_filled(
            alloc,
            &mut tuples,
            self.ty,
            &self.places,
            &mut before,
            self.places.len(),
            entries(&self.list),
        )?;
        Ok(tuples)
    }

    /// The degree of its tuples, or 2^32 - 1 where it is greater.
    pub fn tuple_degree(&self, alloc: Global) -> Result<u32, AllocError>
        ensures { IfOk result (λ degree. degree ≡ capped (degree_of (joined_of self.now).target)) }
    {
        let pieces = last_piece(alloc, self.places.len(), entries(&self.list))?;
        let first = filled(alloc, self.ty, &mut 0, &self.places, &pieces)?;
        Ok(capped_degree(&first))
    }
}
