// Parts of the values of words.
ghost use Rattle.std.specs.Prelude.{◌≡◌, ◌≤◌, ◌<◌, ◌^◌, ℕ, All, [], ◌∷◌, length, IfOk, IfSome, IfNone, OnOk};
ghost use Rattle.raml_syntax.specs.Value.{Value, Both, Just, size};
ghost use Rattle.base_poly.specs.Base.{on_parts, on_content};
ghost use Rattle.value_text.specs.Heap.{IsBelow};
ghost use Rattle.poly_point.specs.Walk.{value, waiting_elements};

use std::alloc::AllocError;
use value_text::{Cell, DataHeap, Word};

/// The words of the parts of a pair.
pub fn parts(heap: &DataHeap, word: Word) -> Option<(Word, Word)>
    requires { IsBelow (length heap.now.cells) word }
    ensures some { IfSome result (λ p. value heap.now.cells word ≡ Both (value heap.now.cells p.0) (value heap.now.cells p.1)) }
    ensures first { IfSome result (λ p. IsBelow (length heap.now.cells) p.0) }
    ensures second { IfSome result (λ p. IsBelow (length heap.now.cells) p.1) }
    ensures none { IfNone result ((f g : Value → ℕ) → on_parts f g (value heap.now.cells word) ≡ 0) }
{
    match word {
        Word::Cell(number) => match heap.get(number) {
            Cell::Pair(first, second) => Some((first, second)),
            Cell::Cons(..) | Cell::Node(..) | Cell::Just(_) => None,
        },
        Word::Int(_) | Word::Bool(_) | Word::Empty => None,
    }
}

/// The word of what an option holds.
pub fn content(heap: &DataHeap, word: Word) -> Option<Word>
    requires { IsBelow (length heap.now.cells) word }
    ensures some { IfSome result (λ w. value heap.now.cells word ≡ Just (value heap.now.cells w)) }
    ensures below { IfSome result (λ w. IsBelow (length heap.now.cells) w) }
    ensures none { IfNone result ((f : Value → ℕ) → on_content f (value heap.now.cells word) ≡ 0) }
{
    match word {
        Word::Cell(number) => match heap.get(number) {
            Cell::Just(content) => Some(content),
            Cell::Cons(..) | Cell::Pair(..) | Cell::Node(..) => None,
        },
        Word::Int(_) | Word::Bool(_) | Word::Empty => None,
    }
}

/// The word of the next element of the lists and trees that wait, which are then fewer or shorter.
pub fn next(heap: &DataHeap, waiting: &mut Vec<Word>) -> Result<Option<Word>, AllocError>
    requires { All (IsBelow (length heap.now.cells)) waiting.old.items }
    ensures some { IfOk result (λ o. IfSome o (λ w. waiting_elements heap.now.cells waiting.old.items
        ≡ value heap.now.cells w ∷ waiting_elements heap.now.cells waiting.new.items)) }
    ensures below { IfOk result (λ o. IfSome o (λ w. IsBelow (length heap.now.cells) w)) }
    ensures none { IfOk result (λ o. IfNone o (waiting_elements heap.now.cells waiting.old.items ≡ [])) }
    ensures left { OnOk result (All (IsBelow (length heap.now.cells)) waiting.new.items) }
{
    while let Some(word) = waiting.pop() {
        if let Word::Cell(number) = word {
            match heap.get(number) {
                Cell::Cons(head, tail) => {
                    waiting.push(tail)?;
                    return Ok(Some(head));
                }
                Cell::Node(element, left, right) => {
                    waiting.push(right)?;
                    waiting.push(left)?;
                    return Ok(Some(element));
                }
                Cell::Pair(..) | Cell::Just(_) => {}
            }
        }
    }
    Ok(None)
}
