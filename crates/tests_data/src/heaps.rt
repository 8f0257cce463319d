// A heap, and how large cells are.
use std::mem::size_of;
use std::test::Fail;
use value_text::{Cell, DataHeap, Word};

#[test]
fn cells_of_a_list(rt: HostRuntime) -> Result<(), Fail> {
    let mut heap = DataHeap::new(rt.alloc());
    assert_eq!(rt; heap.len(), 0);
    heap.reserve(2)?;
    let last = heap.add(Cell::Cons(Word::Int(2), Word::Empty));
    let first = heap.add(Cell::Cons(Word::Int(1), Word::Cell(last)));
    assert_eq!(rt; (last, first, heap.len()), (0, 1, 2));
    assert_eq!(rt; heap.get(0), Cell::Cons(Word::Int(2), Word::Empty));
    assert_eq!(rt; heap.get(1), Cell::Cons(Word::Int(1), Word::Cell(0)));
    Ok(())
}

#[test]
fn a_cell_is_small(rt: HostRuntime) {
    assert!(rt; size_of::<Cell>() <= 64);
    assert_eq!(rt; size_of::<Word>(), 16);
}
