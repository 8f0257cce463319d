// The text of values.
ghost use Rattle.std.specs.Prelude.{◌≡◌, ◌≤◌, ◌<◌, ◌++◌, [], IfOk, IfErr, OnOk, string_bytes, length, codes, Some, slice_get};
ghost use Rattle.raml_syntax.specs.Tree.{Type', ListOf, PairOf, TreeOf, OptionOf};
ghost use Rattle.raml_syntax.specs.Read.{ty_of};
ghost use Rattle.raml_syntax.specs.Value.{Value, Has};
ghost use Rattle.value_text.specs.Stands.{StandsFor};
ghost use Rattle.value_text.specs.Held.{held, value_of};
ghost use Rattle.value_text.specs.Heap.{NameEarlier};
ghost use Rattle.value_text.specs.declared.word.Cell.TheVariants as c;
ghost use Rattle.value_text.specs.declared.word.Word.TheVariants as w;
ghost use Rattle.value_text.specs.Printing.{sign_text, printed, most_text, NotPrinted, StandsForSome};
ghost use Rattle.value_text.specs.Pieces.{IsFine, Plain, pair_pieces, item_text, item_pieces, node_pieces, content_pieces, Prints};
ghost use Rattle.value_text.specs.declared.printing.Piece.TheVariants as p;
ghost use Rattle.value_text.specs.declared.printing.PrintFault.TheVariants as f;

use crate::heap::DataHeap;
use crate::sign::Sign;
use crate::word::{Cell, Word};
use itoa::Buffer;
use raml_syntax::Ty;
use std::alloc::{AllocError, AllocFailed, Global};

/// The longest text that is printed, in bytes.
const MOST_TEXT: usize = 16777216;

/// Why a value is not printed.
#[derive(Clone, Copy, PartialEq, Eq, Debug)]
pub enum PrintFault {
    /// Its text has more than 16777216 bytes.
    TooLong,
    NoMemory,
}

impl From<AllocError> for PrintFault {
    ghost from_gives = { λ _ fault. fault ≡ f.NoMemory };

    fn from(_error: AllocError) -> PrintFault {
        PrintFault::NoMemory
    }
}

impl<T: Drop> From<AllocFailed<T>> for PrintFault {
    ghost from_gives = { λ _ fault. fault ≡ f.NoMemory };

    fn from(_failed: AllocFailed<T>) -> PrintFault {
        PrintFault::NoMemory
    }
}

/// What is still to be printed.
#[derive(Clone, Copy)]
pub enum Piece<'a> {
    /// What the word stands for, as a value of the type.
    Value(Word, &'a Ty),
    /// The rest of a list, behind an element of the type.
    Tail(Word, &'a Ty),
    Sign(Sign),
}

fn sign_text(sign: Sign) -> &'static str
    ensures { result.now ≡ sign_text sign }
{
    match sign {
        Sign::Open => "(",
        Sign::Close => ")",
        Sign::Comma => ", ",
        Sign::OpenList => "[",
        Sign::CloseList => "]",
        Sign::Leaf => "leaf",
        Sign::Node => "node",
        Sign::Nothing => "none",
        Sign::Just => "some",
    }
}

// A value with no cell.
fn print_plain(text: &mut String, word: Word, ty: &Ty) -> Result<(), AllocError>
    requires plain { Plain word }
    requires has { Has (value_of [] word) (ty_of ty.now) }
    ensures { OnOk result (string_bytes text.new ≡ string_bytes text.old ++ printed (value_of [] word) (ty_of ty.now)) }
{
    match word {
        Word::Int(number) => text.push_str(Buffer::new().format(number)),
        Word::Bool(true) => text.push_str("true"),
        Word::Bool(false) => text.push_str("false"),
        Word::Empty => match ty {
            Ty::Tree(_) => text.push_str("leaf"),
            Ty::Opt(_) => text.push_str("none"),
            Ty::Int | Ty::Bool | Ty::Pair(..) | Ty::List(_) => text.push_str("[]"),
        },
        Word::Cell(_) => unreachable!(),
    }
}

// A pair's first sign, and what comes behind it.
fn print_pair<'a>(
    text: &mut String,
    pieces: &mut Vec<Piece<'a>>,
    first: Word,
    second: Word,
    left: &'a Ty,
    right: &'a Ty,
) -> Result<(), AllocError>
    ensures text { OnOk result (string_bytes text.new ≡ string_bytes text.old ++ codes "(") }
    ensures pieces { OnOk result (pieces.new.items ≡ pieces.old.items ++ pair_pieces first second left.entry right.entry) }
{
    text.push_str("(")?;
    pieces.extend_from_slice(&[
        Piece::Sign(Sign::Close),
        Piece::Value(second, right),
        Piece::Sign(Sign::Comma),
        Piece::Value(first, left),
    ])
}

// A list's first sign or a comma, the element behind it where that has no cell, and what comes behind.
fn print_item<'a>(
    text: &mut String,
    pieces: &mut Vec<Piece<'a>>,
    sign: Sign,
    head: Word,
    tail: Word,
    element: &'a Ty,
) -> Result<(), AllocError>
    requires { Plain head → Has (value_of [] head) (ty_of element.now) }
    ensures text { OnOk result (string_bytes text.new ≡ item_text (string_bytes text.old) sign head (ty_of element.now)) }
    ensures pieces { OnOk result (pieces.new.items ≡ pieces.old.items ++ item_pieces head tail element.entry) }
{
    text.push_str(sign_text(sign))?;
    pieces.push(Piece::Tail(tail, element))?;
    match head {
        Word::Cell(_) => Ok(pieces.push(Piece::Value(head, element))?),
        Word::Int(_) | Word::Bool(_) | Word::Empty => print_plain(text, head, element),
    }
}

// A node's first two signs, and what comes behind them.
fn print_node<'a>(
    text: &mut String,
    pieces: &mut Vec<Piece<'a>>,
    item: Word,
    left: Word,
    right: Word,
    element: &'a Ty,
    tree: &'a Ty,
) -> Result<(), AllocError>
    ensures text { OnOk result (string_bytes text.new ≡ string_bytes text.old ++ codes "node(") }
    ensures pieces { OnOk result (pieces.new.items ≡ pieces.old.items ++ node_pieces item left right element.entry tree.entry) }
{
    text.push_str("node(")?;
    pieces.extend_from_slice(&[
        Piece::Sign(Sign::Close),
        Piece::Value(right, tree),
        Piece::Sign(Sign::Comma),
        Piece::Value(left, tree),
        Piece::Sign(Sign::Comma),
        Piece::Value(item, element),
    ])
}

// The first two signs of an option with a content, and what comes behind them.
fn print_content<'a>(
    text: &mut String,
    pieces: &mut Vec<Piece<'a>>,
    word: Word,
    content: &'a Ty,
) -> Result<(), AllocError>
    ensures text { OnOk result (string_bytes text.new ≡ string_bytes text.old ++ codes "some(") }
    ensures pieces { OnOk result (pieces.new.items ≡ pieces.old.items ++ content_pieces word content.entry) }
{
    text.push_str("some(")?;
    pieces.extend_from_slice(&[Piece::Sign(Sign::Close), Piece::Value(word, content)])
}

// The parts of a list's cell.
#[tactic(auto, using(crate::proofs::Pieces::not_cons))]
fn cons_cell(heap: &DataHeap, number: u32) -> (Word, Word)
    requires there { number < length heap.now.cells }
    requires list { (A : Type') × Has (value_of (held heap.now.cells) (w.Cell number)) (ListOf A) }
    ensures cell { slice_get heap.now.cells number ≡ Some (c.Cons result.0 result.1) }
    ensures earlier { NameEarlier heap.now.cells }
{
    match heap.get(number) {
        Cell::Cons(head, tail) => (head, tail),
        Cell::Pair(_, _) => unreachable!(),
        Cell::Node(_, _, _) => unreachable!(),
        Cell::Just(_) => unreachable!(),
    }
}

// The parts of a pair's cell.
#[tactic(auto, using(crate::proofs::Pieces::not_pair))]
fn pair_cell(heap: &DataHeap, number: u32) -> (Word, Word)
    requires there { number < length heap.now.cells }
    requires pair { (A : Type') × (B : Type') × Has (value_of (held heap.now.cells) (w.Cell number)) (PairOf A B) }
    ensures cell { slice_get heap.now.cells number ≡ Some (c.Pair result.0 result.1) }
    ensures earlier { NameEarlier heap.now.cells }
{
    match heap.get(number) {
        Cell::Pair(first, second) => (first, second),
        Cell::Cons(_, _) => unreachable!(),
        Cell::Node(_, _, _) => unreachable!(),
        Cell::Just(_) => unreachable!(),
    }
}

// The parts of a node's cell.
#[tactic(auto, using(crate::proofs::Pieces::not_node))]
fn node_cell(heap: &DataHeap, number: u32) -> (Word, Word, Word)
    requires there { number < length heap.now.cells }
    requires tree { (A : Type') × Has (value_of (held heap.now.cells) (w.Cell number)) (TreeOf A) }
    ensures cell { slice_get heap.now.cells number ≡ Some (c.Node result.0 result.1 result.2) }
    ensures earlier { NameEarlier heap.now.cells }
{
    match heap.get(number) {
        Cell::Node(item, left, right) => (item, left, right),
        Cell::Cons(_, _) => unreachable!(),
        Cell::Pair(_, _) => unreachable!(),
        Cell::Just(_) => unreachable!(),
    }
}

// The content in an option's cell.
#[tactic(auto, using(crate::proofs::Pieces::not_just))]
fn just_cell(heap: &DataHeap, number: u32) -> Word
    requires there { number < length heap.now.cells }
    requires option { (A : Type') × Has (value_of (held heap.now.cells) (w.Cell number)) (OptionOf A) }
    ensures cell { slice_get heap.now.cells number ≡ Some (c.Just result) }
    ensures earlier { NameEarlier heap.now.cells }
{
    match heap.get(number) {
        Cell::Just(content) => content,
        Cell::Cons(_, _) => unreachable!(),
        Cell::Pair(_, _) => unreachable!(),
        Cell::Node(_, _, _) => unreachable!(),
    }
}

// The rest of a list.
#[tactic(auto, using(crate::proofs::Pieces::end_prints, crate::proofs::Pieces::tail_prints))]
fn print_tail<'a>(
    heap: &DataHeap,
    text: &mut String,
    pieces: &mut Vec<Piece<'a>>,
    word: Word,
    element: &'a Ty,
) -> Result<(), AllocError>
    requires fine { IsFine heap.now.cells (p.Tail word element) }
    ensures { OnOk result (Prints heap.now.cells (p.Tail word element.entry)
        (string_bytes text.old) (string_bytes text.new) pieces.old.items pieces.new.items) }
{
    match word {
        Word::Empty => text.push_str("]"),
        Word::Cell(number) => {
            let (head, tail) = cons_cell(heap, number);
            print_item(text, pieces, Sign::Comma, head, tail, element)
        }
        Word::Int(_) => unreachable!(),
        Word::Bool(_) => unreachable!(),
    }
}

// A cell's value.
fn print_cell<'a>(
    heap: &DataHeap,
    text: &mut String,
    pieces: &mut Vec<Piece<'a>>,
    number: u32,
    ty: &'a Ty,
) -> Result<(), AllocError>
    requires fine { IsFine heap.now.cells (p.Value (w.Cell number) ty) }
    ensures { OnOk result (Prints heap.now.cells (p.Value (w.Cell number) ty.entry)
        (string_bytes text.old) (string_bytes text.new) pieces.old.items pieces.new.items) }
{
    match ty {
        Ty::List(element) => {
            let (head, tail) = cons_cell(heap, number);
            print_item(text, pieces, Sign::OpenList, head, tail, element)
        }
        Ty::Pair(left, right) => {
            let (first, second) = pair_cell(heap, number);
            print_pair(text, pieces, first, second, left, right)
        }
        Ty::Tree(element) => {
            let (item, left, right) = node_cell(heap, number);
            print_node(text, pieces, item, left, right, element, ty)
        }
        Ty::Opt(content) => {
            let word = just_cell(heap, number);
            print_content(text, pieces, word, content)
        }
        Ty::Int | Ty::Bool => unreachable!(),
    }
}

// A piece.
#[tactic(auto, using(crate::proofs::Pieces::plain_prints, crate::proofs::Pieces::sign_prints))]
fn print_piece<'a>(
    heap: &DataHeap,
    text: &mut String,
    pieces: &mut Vec<Piece<'a>>,
    piece: Piece<'a>,
) -> Result<(), AllocError>
    requires fine { IsFine heap.now.cells piece }
    ensures { OnOk result (Prints heap.now.cells piece.entry
        (string_bytes text.old) (string_bytes text.new) pieces.old.items pieces.new.items) }
{
    match piece {
        Piece::Sign(sign) => text.push_str(sign_text(sign)),
        Piece::Tail(word, element) => print_tail(heap, text, pieces, word, element),
        Piece::Value(word, ty) => match word {
            Word::Cell(number) => print_cell(heap, text, pieces, number, ty),
            Word::Int(_) | Word::Bool(_) | Word::Empty => print_plain(text, word, ty),
        },
    }
}

/// The text of the value of the type for which the word stands.
///
/// # Errors
///
/// `TooLong` exactly where the text has more than 16777216 bytes, or `NoMemory`.
pub fn print(alloc: Global, heap: &DataHeap, word: Word, ty: &Ty) -> Result<String, PrintFault>
    requires { StandsForSome heap.now.cells word (ty_of ty.now) }
    ensures text { IfOk result (λ text. (x : Value) → StandsFor heap.now.cells word x →
        (string_bytes text ≡ printed x (ty_of ty.now)) × (length (string_bytes text) ≤ most_text)) }
    ensures fault { IfErr result (λ fault. (x : Value) → StandsFor heap.now.cells word x → NotPrinted (ty_of ty.now) fault x) }
{
    let mut text = String::new(alloc);
    let mut pieces = Vec::new(alloc);
    pieces.push(Piece::Value(word, ty))?;
    let _cells = heap.len();
    while let Some(piece) = pieces.pop() {
        print_piece(heap, &mut text, &mut pieces, piece)?;
        if text.len() > MOST_TEXT {
            return Err(PrintFault::TooLong);
        }
    }
    Ok(text)
}
