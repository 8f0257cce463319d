// How many elements arguments have.
ghost use Rattle.std.specs.Prelude.{◌≡◌, ◌≤◌, ◌^◌, List, length};
ghost use Rattle.raml_syntax.specs.Value.{Value, size};
ghost use Rattle.base_poly.specs.Base.{elements};
ghost use Rattle.value_text.specs.Heap.{IsBelow, NameEarlier};
ghost use Rattle.value_text.specs.Stands.{StandForAll};
ghost use Rattle.poly_point.specs.Point.{AreArguments};
ghost use Rattle.poly_point.specs.Walk.{value};
ghost use Rattle.explain_marks.specs.Marks.{size_at};

use value_text::{Cell, DataHeap, Word};

/// How many elements the argument at the place has, which is 0 where it is no list and no tree.
pub(crate) fn size_at(heap: &DataHeap, args: &[Word], place: usize) -> u32
    requires { AreArguments heap.now.cells args.now }
    ensures { (vs : List Value) → StandForAll heap.now.cells args.now vs → result ≡ size_at place vs }
{
    names_earlier(heap);
    match args.get(place) {
        Some(word) => count_elements(heap, *word),
        None => 0,
    }
}

/// Tells that each cell of the heap names only cells before it.
fn names_earlier(heap: &DataHeap)
    ensures { NameEarlier heap.now.cells }
{
    heap.len();
}

/// How many elements the list or the tree of a word has.
fn count_elements(heap: &DataHeap, word: Word) -> u32
    requires there { IsBelow (length heap.now.cells) word }
    requires small { size (value heap.now.cells word) ≤ 2 ^ 20 }
    ensures { result ≡ length (elements (value heap.now.cells word)) }
{
    let mut count = 0;
    let mut rest = word;
    'rest: while let Word::Cell(number) = rest {
        match heap.get(number) {
            Cell::Cons(_, tail) => {
                count += 1;
                rest = tail;
            }
            Cell::Node(_, left, right) => {
                count += 1 + count_elements(heap, left);
                rest = right;
            }
            Cell::Pair(..) | Cell::Just(_) => return count,
        }
    }
    count
}
