// What instructions take from the stack.
ghost use Rattle.std.specs.Prelude.{◌≡◌, ◌+◌, ◌<◌, List, [], ◌∷◌, ◌++◌, length, vec_len, vec_capacity};
ghost use Rattle.raml_syntax.specs.Default.{IsNumber, IsTruth};
ghost use Rattle.stack_compile.specs.Machine.{top};
ghost use Rattle.stack_compile.specs.Ready.{TopIs, IsPair, IsList, IsTree, IsOption};
ghost use Rattle.value_text.specs.Heap.{IsBelow};
ghost use Rattle.value_text.specs.Held.{Held, value_of, held};
ghost use Rattle.value_text.specs.declared.word.Word.TheVariants.{Int, Bool};
ghost use Rattle.metered_vm.specs.Running.{stack_of};
ghost use Rattle.metered_vm.specs.Parts.{AreParts, AreListParts, AreTreeParts, IsContent};

use value_text::{Cell, DataHeap, Word};

/// The top of a stack.
pub fn pop(stack: &mut Vec<Word>) -> Word
    requires { 0 < vec_len stack.old }
    ensures items { stack.old.items ≡ stack.new.items ++ result ∷ [] }
    ensures len { vec_len stack.new + 1 ≡ vec_len stack.old }
    ensures capacity { vec_capacity stack.new ≡ vec_capacity stack.old }
{
    match stack.pop() {
        Some(word) => word,
        None => unreachable!(),
    }
}

/// A number on top.
#[tactic(auto, using(crate::proofs::CellKinds::not_number, crate::proofs::Lists::stack_snoc, crate::proofs::Lists::length_stack))]
pub fn number(stack: &mut Vec<Word>) -> i64
    requires { (hs : List Held) × TopIs IsNumber (stack_of hs stack.old.items []) }
    ensures items { stack.old.items ≡ stack.new.items ++ Int result ∷ [] }
    ensures len { vec_len stack.new + 1 ≡ vec_len stack.old }
    ensures capacity { vec_capacity stack.new ≡ vec_capacity stack.old }
{
    match pop(stack) {
        Word::Int(n) => n,
        _ => unreachable!(),
    }
}

/// A truth on top.
#[tactic(auto, using(crate::proofs::CellKinds::not_truth, crate::proofs::Lists::stack_snoc, crate::proofs::Lists::length_stack))]
pub fn truth(stack: &mut Vec<Word>) -> bool
    requires { (hs : List Held) × TopIs IsTruth (stack_of hs stack.old.items []) }
    ensures items { stack.old.items ≡ stack.new.items ++ Bool result ∷ [] }
    ensures len { vec_len stack.new + 1 ≡ vec_len stack.old }
    ensures capacity { vec_capacity stack.new ≡ vec_capacity stack.old }
{
    match pop(stack) {
        Word::Bool(b) => b,
        _ => unreachable!(),
    }
}

/// The two parts of a pair.
pub fn pair_parts(heap: &DataHeap, word: Word) -> (Word, Word)
    requires pair { IsPair (value_of (held heap.now.cells) word) }
    requires below { IsBelow (length heap.now.cells) word }
    ensures { AreParts heap.now.cells word result.0 result.1 }
{
    match word {
        Word::Cell(number) => match heap.get(number) {
            Cell::Pair(first, second) => (first, second),
            _ => unreachable!(),
        },
        _ => unreachable!(),
    }
}

/// The head and the tail of a list, if it is not empty.
pub fn list_parts(heap: &DataHeap, word: Word) -> Option<(Word, Word)>
    requires list { IsList (value_of (held heap.now.cells) word) }
    requires below { IsBelow (length heap.now.cells) word }
    ensures { AreListParts heap.now.cells word result }
{
    match word {
        Word::Cell(number) => match heap.get(number) {
            Cell::Cons(head, tail) => Some((head, tail)),
            _ => unreachable!(),
        },
        Word::Empty => None,
        _ => unreachable!(),
    }
}

/// The element, the left and the right tree of a node, if it is no leaf.
pub fn tree_parts(heap: &DataHeap, word: Word) -> Option<(Word, Word, Word)>
    requires tree { IsTree (value_of (held heap.now.cells) word) }
    requires below { IsBelow (length heap.now.cells) word }
    ensures { AreTreeParts heap.now.cells word result }
{
    match word {
        Word::Cell(number) => match heap.get(number) {
            Cell::Node(element, left, right) => Some((element, left, right)),
            _ => unreachable!(),
        },
        Word::Empty => None,
        _ => unreachable!(),
    }
}

/// The content of an option, if it has one.
pub fn content(heap: &DataHeap, word: Word) -> Option<Word>
    requires option { IsOption (value_of (held heap.now.cells) word) }
    requires below { IsBelow (length heap.now.cells) word }
    ensures { IsContent heap.now.cells word result }
{
    match word {
        Word::Cell(number) => match heap.get(number) {
            Cell::Just(content) => Some(content),
            _ => unreachable!(),
        },
        Word::Empty => None,
        _ => unreachable!(),
    }
}
