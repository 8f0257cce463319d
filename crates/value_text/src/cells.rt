// Cells of words that are read.
ghost use Rattle.std.specs.Prelude.{◌≡◌, ◌<◌, ◌+◌, ◌^◌, ℕ, List, [], OnOk, IfOk, length};
ghost use Rattle.raml_syntax.specs.Value as v;
ghost use Rattle.value_text.specs.Heap.{IsBelow, NamesBelow};
ghost use Rattle.value_text.specs.Held.{Held, held, held_of, value_held, value_of};
ghost use Rattle.value_text.specs.Goals.{top, below, paired, noded, justed, joined};
ghost use Rattle.value_text.specs.State.{values_in, values_of, AllBelow, Grows};

use crate::heap::DataHeap;
use crate::word::{Cell, Word};
use std::alloc::AllocError;

// The word that was put down last; by default that of nothing.
#[tactic(auto, using(crate::proofs::States::values_snoc, crate::proofs::States::below_front))]
fn pop(words: &mut Vec<Word>) -> Word
    ensures top { (hs : List Held) → value_of hs result ≡ top (values_in hs words.old.items []) }
    ensures below { (hs : List Held) → values_in hs words.new.items [] ≡ below (values_in hs words.old.items []) }
    ensures earlier { (n : ℕ) → AllBelow n words.old.items → AllBelow n words.new.items × IsBelow n result }
{
    match words.pop() {
        Some(word) => word,
        None => Word::Empty,
    }
}

// Makes a cell.
fn add_cell(heap: &mut DataHeap, cell: Cell) -> Result<Word, AllocError>
    requires earlier { NamesBelow (length heap.old.cells) cell }
    requires room { length heap.old.cells + 1 < 2 ^ 32 }
    ensures value { IfOk result (λ word. value_of (held heap.new.cells) word ≡ value_held (held_of (held heap.old.cells) cell)) }
    ensures below { IfOk result (λ word. IsBelow (length heap.new.cells) word) }
    ensures count { OnOk result (length heap.new.cells ≡ length heap.old.cells + 1) }
    ensures grows { Grows heap.old.cells heap.new.cells }
{
    heap.reserve(1)?;
    Ok(Word::Cell(heap.add(cell)))
}

/// Makes a pair of the two last words.
pub fn make_pair(heap: &mut DataHeap, words: &mut Vec<Word>) -> Result<(), AllocError>
    requires words { AllBelow (length heap.old.cells) words.old.items }
    requires room { length heap.old.cells + 1 < 2 ^ 32 }
    ensures value { OnOk result (values_of heap.new.cells words.new.items ≡ paired (values_of heap.old.cells words.old.items)) }
    ensures below { OnOk result (AllBelow (length heap.new.cells) words.new.items) }
    ensures count { OnOk result (length heap.new.cells ≡ length heap.old.cells + 1) }
    ensures grows { Grows heap.old.cells heap.new.cells }
{
    let second = pop(words);
    let first = pop(words);
    let word = add_cell(heap, Cell::Pair(first, second))?;
    words.push(word)?;
    Ok(())
}

/// Makes a node of the three last words.
pub fn make_node(heap: &mut DataHeap, words: &mut Vec<Word>) -> Result<(), AllocError>
    requires words { AllBelow (length heap.old.cells) words.old.items }
    requires room { length heap.old.cells + 1 < 2 ^ 32 }
    ensures value { OnOk result (values_of heap.new.cells words.new.items ≡ noded (values_of heap.old.cells words.old.items)) }
    ensures below { OnOk result (AllBelow (length heap.new.cells) words.new.items) }
    ensures count { OnOk result (length heap.new.cells ≡ length heap.old.cells + 1) }
    ensures grows { Grows heap.old.cells heap.new.cells }
{
    let right = pop(words);
    let left = pop(words);
    let item = pop(words);
    let word = add_cell(heap, Cell::Node(item, left, right))?;
    words.push(word)?;
    Ok(())
}

/// Makes the last word the content of an option.
pub fn make_just(heap: &mut DataHeap, words: &mut Vec<Word>) -> Result<(), AllocError>
    requires words { AllBelow (length heap.old.cells) words.old.items }
    requires room { length heap.old.cells + 1 < 2 ^ 32 }
    ensures value { OnOk result (values_of heap.new.cells words.new.items ≡ justed (values_of heap.old.cells words.old.items)) }
    ensures below { OnOk result (AllBelow (length heap.new.cells) words.new.items) }
    ensures count { OnOk result (length heap.new.cells ≡ length heap.old.cells + 1) }
    ensures grows { Grows heap.old.cells heap.new.cells }
{
    let content = pop(words);
    let word = add_cell(heap, Cell::Just(content))?;
    words.push(word)?;
    Ok(())
}

/// Makes a list of so many last words.
pub fn join(heap: &mut DataHeap, words: &mut Vec<Word>, count: usize) -> Result<(), AllocError>
    requires words { AllBelow (length heap.old.cells) words.old.items }
    requires room { length heap.old.cells + count < 2 ^ 32 }
    ensures value { OnOk result
        (values_of heap.new.cells words.new.items ≡ joined count (values_of heap.old.cells words.old.items) v.Empty) }
    ensures below { OnOk result (AllBelow (length heap.new.cells) words.new.items) }
    ensures count { OnOk result (length heap.new.cells ≡ length heap.old.cells + count) }
    ensures grows { Grows heap.old.cells heap.new.cells }
{
    heap.reserve(count as u32)?;
    let mut tail = Word::Empty;
    let mut left = count;
    while left > 0 {
        let head = pop(words);
        tail = add_cell(heap, Cell::Cons(head, tail))?;
        left -= 1;
    }
    words.push(tail)?;
    Ok(())
}
