// Base polynomials at the values of words.
ghost use Rattle.std.specs.Prelude.{◌≡◌, ◌≤◌, ◌<◌, ◌^◌, [], ◌∷◌, length, IfOk, OnOk};
ghost use Rattle.base_poly.specs.Plain.{Pair, many, deg};
ghost use Rattle.base_poly.specs.Base.{base};
ghost use Rattle.base_poly.specs.Read.{index_of, plains_of};
ghost use Rattle.poly_point.specs.Walk.{value, IsSmall, AreRaised, CanBeRaised};

use crate::elements::{content, next, parts};
use base_poly::Index;
use std::alloc::{AllocError, Global};
use value_text::{DataHeap, Word};

/// The base polynomial of the index at the word's value.
#[cycle(base)]
pub fn base(alloc: Global, heap: &DataHeap, index: &Index, word: Word) -> Result<u128, AllocError>
    requires small { IsSmall heap.now.cells word }
    requires low { deg (index_of index.now) ≤ 4 }
    ensures { IfOk result (λ n. n ≡ base (index_of index.now) (value heap.now.cells word)) }
{
    match index {
        Index::Unit => Ok(1),
        Index::Pair(first, second) => both(alloc, heap, first, second, word),
        Index::List(entries) => over(alloc, heap, entries, word),
        Index::Opt(None) => Ok(1),
        Index::Opt(Some(entry)) => match content(heap, word) {
            Some(held) => base(alloc, heap, entry, held),
            None => Ok(0),
        },
    }
}

// The product over the parts of a pair.
#[cycle(base)]
fn both(
    alloc: Global,
    heap: &DataHeap,
    first: &Index,
    second: &Index,
    word: Word,
) -> Result<u128, AllocError>
    requires small { IsSmall heap.now.cells word }
    requires low { deg (Pair (index_of first.now) (index_of second.now)) ≤ 4 }
    ensures { IfOk result (λ n. n ≡ base (Pair (index_of first.now) (index_of second.now)) (value heap.now.cells word)) }
{
    match parts(heap, word) {
        Some((left, right)) => {
            let count = base(alloc, heap, first, left)?;
            Ok(count * base(alloc, heap, second, right)?)
        }
        None => Ok(0),
    }
}

// The sum over all choices of increasing positions, in one walk over the elements: it keeps such a sum
// for each front of the entries.
#[cycle(base)]
fn over(alloc: Global, heap: &DataHeap, entries: &[Index], word: Word) -> Result<u128, AllocError>
    requires small { IsSmall heap.now.cells word }
    requires low { deg (many (plains_of entries.now)) ≤ 4 }
    ensures { IfOk result (λ n. n ≡ base (many (plains_of entries.now)) (value heap.now.cells word)) }
{
    if entries.is_empty() {
        return Ok(1);
    }
    let mut sums = [1, 0, 0, 0, 0];
    let mut waiting = vec![in alloc; word]?;
    while let Some(element) = next(heap, &mut waiting)? {
        raise(alloc, heap, entries, element, &mut sums)?;
    }
    Ok(sums[entries.len()])
}

// Takes one element more into the sums.
#[cycle(base)]
fn raise(
    alloc: Global,
    heap: &DataHeap,
    entries: &[Index],
    element: Word,
    sums: &mut [u128],
) -> Result<(), AllocError>
    requires small { IsSmall heap.now.cells element }
    requires low { deg (many (plains_of entries.now)) ≤ 4 }
    requires room { length entries.now < length sums.old }
    requires fits { CanBeRaised (plains_of entries.now) (value heap.now.cells element) sums.old }
    ensures raised { OnOk result (AreRaised (plains_of entries.now) (value heap.now.cells element) sums.old sums.new) }
    ensures len { OnOk result (length sums.new ≡ length sums.old) }
{
    let mut place = entries.len();
    while place > 0 {
        place -= 1;
        sums[place + 1] += sums[place] * base(alloc, heap, &entries[place], element)?;
    }
    Ok(())
}
