// Indices of the parts of a variable that is taken apart.
ghost use Rattle.std.specs.Prelude.{◌≡◌, [], ◌∷◌, ◌++◌, IfOk, OnOk};
ghost use Rattle.raml_syntax.specs.Read.{ty_of};
ghost use Rattle.base_poly.specs.Plain.{many, entries_of};
ghost use Rattle.base_poly.specs.Read.{index_of, plains_of};
ghost use Rattle.index_shift.specs.Parts.{at_trees, list_parts, tree_parts, pair_parts, option_parts, index_parts};

use base_poly::{Index, Tuple};
use raml_syntax::Ty;
use std::alloc::{AllocError, Global};

/// The tuples of indices of the parts that stand for an index of the type.
pub fn index_parts(alloc: Global, ty: &Ty, index: &Index) -> Result<Vec<Tuple>, AllocError>
    ensures { IfOk result (λ found. found.items ≡ index_parts (ty_of ty.now) (index_of index.now)) }
{
    match ty {
        Ty::Int | Ty::Bool => Ok(Vec::new(alloc)),
        Ty::Pair(..) => pair_parts(alloc, index),
        Ty::List(element) => list_parts(alloc, &Index::zero(alloc, element)?, list_entries(index)),
        Ty::Tree(element) => tree_parts(alloc, &Index::zero(alloc, element)?, list_entries(index)),
        Ty::Opt(content) => option_parts(alloc, &Index::zero(alloc, content)?, index),
    }
}

// The entries of a list index.
#[tactic(auto, using(crate::proofs::Readings::entries_read))]
fn list_entries(index: &Index) -> &[Index]
    ensures { plains_of result.now ≡ entries_of (index_of index.now) }
{
    match index {
        Index::List(entries) => entries,
        Index::Unit | Index::Pair(..) | Index::Opt(_) => &[],
    }
}

// Both parts of a pair.
#[tactic(auto, using(crate::proofs::Readings::no_parts))]
fn pair_parts(alloc: Global, index: &Index) -> Result<Vec<Tuple>, AllocError>
    ensures { IfOk result (λ found. found.items ≡ pair_parts (index_of index.now)) }
{
    match index {
        Index::Pair(first, second) => {
            let parts = vec![in alloc; first.copy(alloc)?, second.copy(alloc)?]?;
            only(alloc, parts)
        }
        Index::Unit | Index::List(_) | Index::Opt(_) => Ok(Vec::new(alloc)),
    }
}

// The entry of an option index, or `none` for it.
#[tactic(auto, using(crate::proofs::Readings::no_content))]
fn option_parts(alloc: Global, none: &Index, index: &Index) -> Result<Vec<Tuple>, AllocError>
    ensures { IfOk result (λ found. found.items ≡ option_parts (index_of none.now) (index_of index.now)) }
{
    match index {
        Index::Opt(None) => only(alloc, vec![in alloc; none.copy(alloc)?]?),
        Index::Opt(Some(entry)) => only(alloc, vec![in alloc; entry.copy(alloc)?]?),
        Index::Unit | Index::Pair(..) | Index::List(_) => Ok(Vec::new(alloc)),
    }
}

// The tuple of these indices alone.
fn only(alloc: Global, parts: Vec<Index>) -> Result<Vec<Tuple>, AllocError>
    ensures { IfOk result (λ found. found.items ≡ plains_of parts.items ∷ []) }
{
    Ok(vec![in alloc; Tuple::new(parts)]?)
}

// The first entry at the head, or `none` there and all entries in the tail.
fn list_parts(alloc: Global, none: &Index, entries: &[Index]) -> Result<Vec<Tuple>, AllocError>
    ensures { IfOk result (λ found. found.items ≡ list_parts (index_of none.now) (plains_of entries.now)) }
{
    match entries {
        [] => Ok(vec![in alloc; with_tail(alloc, none, entries)?]?),
        [first, rest @ ..] => {
            let mut found = vec![in alloc; with_tail(alloc, first, rest)?]?;
            found.push(with_tail(alloc, none, entries)?)?;
            Ok(found)
        }
    }
}

fn with_tail(alloc: Global, head: &Index, tail: &[Index]) -> Result<Tuple, AllocError>
    ensures { IfOk result (λ tuple. tuple ≡ index_of head.now ∷ (many (plains_of tail.now) ∷ [])) }
{
    Ok(Tuple::new(vec![in alloc; head.copy(alloc)?, list_of(alloc, tail)?]?))
}

// The list index with these entries.
fn list_of(alloc: Global, entries: &[Index]) -> Result<Index, AllocError>
    ensures { IfOk result (λ index. index_of index ≡ many (plains_of entries.now)) }
{
    let mut copies = Vec::with_capacity(alloc, entries.len())?;
    append_copies(alloc, &mut copies, entries)?;
    Ok(Index::List(copies))
}

/// Appends copies of the indices.
pub fn append_copies(
    alloc: Global,
    whole: &mut Vec<Index>,
    indices: &[Index],
) -> Result<(), AllocError>
    ensures { OnOk result (plains_of whole.new.items ≡ plains_of whole.old.items ++ plains_of indices.now) }
{
    for index in indices {
        whole.push(index.copy(alloc)?)?;
    }
    Ok(())
}

// The first entry at the element, or `none` there, and all others in the trees.
fn tree_parts(alloc: Global, none: &Index, entries: &[Index]) -> Result<Vec<Tuple>, AllocError>
    ensures { IfOk result (λ found. found.items ≡ tree_parts (index_of none.now) (plains_of entries.now)) }
{
    let mut found = Vec::new(alloc);
    if let [first, rest @ ..] = entries {
        append_trees(alloc, &mut found, first, rest)?;
    }
    append_trees(alloc, &mut found, none, entries)?;
    Ok(found)
}

// Appends the tuples with this index at the element, for every cut of the entries in two.
fn append_trees(
    alloc: Global,
    found: &mut Vec<Tuple>,
    element: &Index,
    entries: &[Index],
) -> Result<(), AllocError>
    ensures { OnOk result (found.new.items ≡ found.old.items ++ at_trees (index_of element.now) (plains_of entries.now)) }
{
    for cut in 0..entries.len() + 1 {
        found.push(with_trees(alloc, element, &entries[..cut], &entries[cut..])?)?;
    }
    Ok(())
}

fn with_trees(
    alloc: Global,
    element: &Index,
    left: &[Index],
    right: &[Index],
) -> Result<Tuple, AllocError>
    ensures { IfOk result (λ tuple. tuple ≡ index_of element.now ∷ (many (plains_of left.now) ∷ (many (plains_of right.now) ∷ []))) }
{
    let mut parts = Vec::new(alloc);
    parts.push(element.copy(alloc)?)?;
    parts.push(list_of(alloc, left)?)?;
    parts.push(list_of(alloc, right)?)?;
    Ok(Tuple::new(parts))
}
