// Points of small polynomials.
ghost use Rattle.std.specs.Prelude.{◌≡◌, ◌<◌, ◌≤◌, ◌≤ℤ◌, pos, [], ◌∷◌, IfOk};
ghost use Rattle.base_poly.specs.Plain.{OneEntry, deg, order};
ghost use Rattle.base_poly.specs.Poly.{IsPoly};
ghost use Rattle.base_poly.specs.Read.{index_of};
ghost use Rattle.poly_point.specs.Point.{AreArguments, AreLow};

use base_poly::{Index, Poly, Tuple};
use poly_point::{Point, PointFault, at};
use std::alloc::{AllocError, Global};
use std::cmp::Ordering;
use std::test::Fail;
use value_text::{Cell, DataHeap, Word};

// A list of three integers.
fn list(alloc: Global) -> Result<DataHeap, AllocError>
    ensures { IfOk result (λ heap. AreArguments heap.cells (Word.Cell 2 ∷ [])) }
{
    let mut heap = DataHeap::new(alloc);
    heap.reserve(3)?;
    heap.add(Cell::Cons(Word::Int(1), Word::Empty));
    heap.add(Cell::Cons(Word::Int(2), Word::Cell(0)));
    heap.add(Cell::Cons(Word::Int(3), Word::Cell(1)));
    Ok(heap)
}

// A tree of three options, of which the second in its order is none.
fn tree(alloc: Global) -> Result<DataHeap, AllocError>
    ensures { IfOk result (λ heap. AreArguments heap.cells (Word.Cell 4 ∷ [])) }
{
    let mut heap = DataHeap::new(alloc);
    heap.reserve(5)?;
    heap.add(Cell::Just(Word::Int(7)));
    heap.add(Cell::Node(Word::Empty, Word::Empty, Word::Empty));
    heap.add(Cell::Node(Word::Cell(0), Word::Empty, Word::Empty));
    heap.add(Cell::Just(Word::Int(5)));
    heap.add(Cell::Node(Word::Cell(3), Word::Cell(1), Word::Cell(2)));
    Ok(heap)
}

// The coefficient, where 2^64 - 1 stands for the greatest one.
fn coefficient(number: u64) -> i128
    ensures { pos 0 ≤ℤ result }
{
    match number {
        u64::MAX => i128::MAX,
        _ => i128::from(number),
    }
}

// Two indices in order, with their coefficients.
fn of_two(
    alloc: Global,
    den: u32,
    first: (Index, u64),
    last: (Index, u64),
) -> Result<Poly, AllocError>
    requires den { 0 < den }
    requires low { (deg (index_of first.0) ≤ 4) × (deg (index_of last.0) ≤ 4) }
    requires ordered { order (index_of first.0) (index_of last.0) ≡ Ordering.Less }
    ensures poly { IfOk result IsPoly }
    ensures low { IfOk result AreLow }
{
    let one = (Tuple::new(vec![in alloc; first.0]?), coefficient(first.1));
    let other = (Tuple::new(vec![in alloc; last.0]?), coefficient(last.1));
    Ok(Poly {
        den: i128::from(den),
        terms: vec![in alloc; one, other]?,
    })
}

// The coefficients of `[_]` and `[_, _]`, over the denominator.
fn of_list(alloc: Global, den: u32, once: u64, twice: u64) -> Result<Poly, AllocError>
    requires { 0 < den }
    ensures poly { IfOk result IsPoly }
    ensures low { IfOk result AreLow }
{
    let one = Index::List(vec![in alloc; Index::Unit]?);
    let two = Index::List(vec![in alloc; Index::Unit, Index::Unit]?);
    of_two(alloc, den, (one, once), (two, twice))
}

#[test]
fn a_list_of_three(rt: HostRuntime) -> Result<(), Fail> {
    let alloc = rt.alloc();
    let heap = list(alloc)?;
    for (den, once, twice, want) in [
        (
            1,
            2,
            3,
            Ok(Point {
                numerator: 15,
                floor: 15,
            }),
        ),
        (
            4,
            2,
            3,
            Ok(Point {
                numerator: 15,
                floor: 3,
            }),
        ),
        (
            7,
            0,
            0,
            Ok(Point {
                numerator: 0,
                floor: 0,
            }),
        ),
        (1, u64::MAX, 0, Err(PointFault::Leaves)),
        (1, 0, u64::MAX, Err(PointFault::Leaves)),
    ] {
        assert!(rt; den > 0);
        let poly = of_list(alloc, den, once, twice)?;
        assert_eq!(rt; at(alloc, &poly, &heap, &[Word::Cell(2)]), want);
    }
    Ok(())
}

fn some(alloc: Global, index: Index) -> Result<Index, AllocError>
    ensures { IfOk result (λ made. index_of made ≡ OneEntry (index_of index)) }
{
    Ok(Index::Opt(Some(Box::new(alloc, index)?)))
}

// 10 times `[[], [_]]` and 100 times `[[_], []]`.
fn of_tree(alloc: Global) -> Result<Poly, AllocError>
    ensures poly { IfOk result IsPoly }
    ensures low { IfOk result AreLow }
{
    let first = vec![in alloc; Index::Opt(None), some(alloc, Index::Unit)?]?;
    let last = vec![in alloc; some(alloc, Index::Unit)?, Index::Opt(None)]?;
    of_two(alloc, 1, (Index::List(first), 10), (Index::List(last), 100))
}

#[test]
fn a_tree_of_options(rt: HostRuntime) -> Result<(), Fail> {
    let alloc = rt.alloc();
    // Of some, none and some the last two or the first are behind or before another one.
    let point = at(alloc, &of_tree(alloc)?, &tree(alloc)?, &[Word::Cell(4)]);
    assert_eq!(rt;
        point,
        Ok(Point {
            numerator: 220,
            floor: 220
        })
    );
    Ok(())
}
