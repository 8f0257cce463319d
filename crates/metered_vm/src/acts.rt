// The instructions that need no code.
ghost use Rattle.std.specs.Prelude.{◌≡◌, ◌+◌, ◌<◌, ◌≤◌, [], ◌∷◌, ◌++◌, length, vec_len, vec_capacity, OnOk, OnErr, Some};
ghost use Rattle.raml_syntax.specs.Eval.{arith_result, compare_result};
ghost use Rattle.std.specs.Int.{int_wrap, w64};
ghost use Rattle.value_text.specs.Heap.{IsBelow, NamesBelow};
ghost use Rattle.value_text.specs.Held.{value_of, value_held, held_of, held};
ghost use Rattle.stack_compile.specs.Machine.{operated};
ghost use Rattle.stack_compile.specs.Ready.{TwoNumbers};
ghost use Rattle.stack_compile.specs.declared.instr.Instr.TheVariants as i;
ghost use Rattle.metered_vm.specs.Running.{IsSound, HasRoom, Advances, Stays, stack_in};
ghost use Rattle.metered_vm.specs.Moving.{CanMake, Makes, Pushes, PushesCell, Operates};

use crate::machine::Machine;
use crate::operands::{content, list_parts, number, pair_parts, pop, tree_parts, truth};
use raml_syntax::{ArithOp, CompareOp};
use std::alloc::AllocError;
use value_text::{Cell, Word};

/// Puts a word where there is room for it.
fn put(words: &mut Vec<Word>, word: Word)
    requires { vec_len words.old < vec_capacity words.old }
    ensures items { words.new.items ≡ words.old.items ++ word ∷ [] }
    ensures len { vec_len words.new ≡ vec_len words.old + 1 }
    ensures capacity { vec_capacity words.old ≤ vec_capacity words.new }
{
    words.push(word).unwrap();
}

/// Pushes a word.
#[tactic(auto, using(crate::proofs::Lists::stack_snoc, crate::proofs::Lists::below_snoc))]
pub fn push(m: &mut Machine, word: Word) -> Result<(), AllocError>
    requires sound { IsSound m.old }
    requires below { IsBelow (length m.old.heap.cells) word }
    requires room { HasRoom m.old }
    ensures does { OnOk result (Pushes (value_of (held m.old.heap.cells) word) m.old m.new) }
    ensures advances { OnOk result (Advances m.old m.new) }
    ensures stays { OnErr result (Stays m.old m.new) }
    ensures sound { IsSound m.new }
{
    m.stack.push(word)?;
    m.place += 1;
    Ok(())
}

/// Pushes a local.
pub fn load(m: &mut Machine, k: u32) -> Result<(), AllocError>
    requires sound { IsSound m.old }
    requires finds { CanMake (i.Load k) m.old }
    requires room { HasRoom m.old }
    ensures does { OnOk result (Makes (i.Load k) m.old m.new) }
    ensures advances { OnOk result (Advances m.old m.new) }
    ensures stays { OnErr result (Stays m.old m.new) }
    ensures sound { IsSound m.new }
{
    let word = m.locals[m.base + k as usize];
    push(m, word)
}

/// Pops a word and appends it to the locals.
#[tactic(auto, using(crate::proofs::Lists::stack_snoc, crate::proofs::Lists::length_stack, crate::proofs::Lists::below_snoc, crate::proofs::Lists::below_init_is, crate::proofs::Lists::below_last_is))]
pub fn bind(m: &mut Machine) -> Result<(), AllocError>
    requires sound { IsSound m.old }
    requires finds { CanMake i.Bind m.old }
    requires room { HasRoom m.old }
    ensures does { OnOk result (Makes i.Bind m.old m.new) }
    ensures advances { OnOk result (Advances m.old m.new) }
    ensures stays { OnErr result (Stays m.old m.new) }
    ensures sound { IsSound m.new }
{
    m.locals.reserve(1)?;
    let word = pop(&mut m.stack);
    put(&mut m.locals, word);
    m.place += 1;
    Ok(())
}

/// Removes some of the last locals.
#[tactic(auto, using(crate::proofs::Lists::below_take))]
pub fn unbind(m: &mut Machine, k: u32)
    requires sound { IsSound m.old }
    requires finds { CanMake (i.Unbind k) m.old }
    requires room { HasRoom m.old }
    ensures does { Makes (i.Unbind k) m.old m.new }
    ensures advances { Advances m.old m.new }
    ensures sound { IsSound m.new }
{
    let left = m.locals.len() - k as usize;
    m.locals.truncate(left);
    m.place += 1;
}

/// Adds ticks.
pub fn tick(m: &mut Machine, n: u32)
    requires sound { IsSound m.old }
    requires room { HasRoom m.old }
    ensures does { Makes (i.Tick n) m.old m.new }
    ensures advances { Advances m.old m.new }
    ensures sound { IsSound m.new }
{
    m.ticks += n as u64;
    m.place += 1;
}

/// Goes to a place.
pub fn jump(m: &mut Machine, to: u32)
    requires sound { IsSound m.old }
    requires room { HasRoom m.old }
    ensures does { Makes (i.Jump to) m.old m.new }
    ensures advances { Advances m.old m.new }
    ensures sound { IsSound m.new }
{
    m.place = to as usize;
}

/// Pops a truth, and goes to a place where it is false.
#[tactic(auto, using(crate::proofs::Lists::stack_snoc, crate::proofs::Lists::below_init_is))]
pub fn fork(m: &mut Machine, to: u32)
    requires sound { IsSound m.old }
    requires finds { CanMake (i.Branch to) m.old }
    requires room { HasRoom m.old }
    ensures does { Makes (i.Branch to) m.old m.new }
    ensures advances { Advances m.old m.new }
    ensures sound { IsSound m.new }
{
    if truth(&mut m.stack) {
        m.place += 1;
    } else {
        m.place = to as usize;
    }
}

/// Negates the truth on top.
#[tactic(auto, using(crate::proofs::Lists::stack_snoc, crate::proofs::Lists::below_snoc, crate::proofs::Lists::below_init_is))]
pub fn negate(m: &mut Machine)
    requires sound { IsSound m.old }
    requires finds { CanMake i.Not m.old }
    requires room { HasRoom m.old }
    ensures does { Makes i.Not m.old m.new }
    ensures advances { Advances m.old m.new }
    ensures sound { IsSound m.new }
{
    let b = truth(&mut m.stack);
    put(&mut m.stack, Word::Bool(!b));
    m.place += 1;
}

/// The result of an operator, brought into 64 bits.
#[inline(always)]
fn result_of(op: ArithOp, left: i64, right: i64) -> i64
    ensures { result ≡ int_wrap w64 (arith_result op left right) }
{
    match op {
        ArithOp::Add => left.wrapping_add(right),
        ArithOp::Sub => left.wrapping_sub(right),
        ArithOp::Mul => left.wrapping_mul(right),
        ArithOp::Div => match right {
            0 => 0,
            _ => left.wrapping_div(right),
        },
        ArithOp::Mod => match right {
            0 => left,
            _ => left.wrapping_rem(right),
        },
    }
}

/// Takes the right and the left operand, and pushes the result.
#[tactic(auto, using(crate::proofs::Lists::stack_snoc, crate::proofs::Lists::below_snoc, crate::proofs::Lists::below_init_is))]
#[inline(always)]
pub fn arith(m: &mut Machine, op: ArithOp)
    requires sound { IsSound m.old }
    requires finds { TwoNumbers (stack_in m.old) }
    requires room { HasRoom m.old }
    ensures does { Operates (operated op) m.old m.new }
    ensures advances { Advances m.old m.new }
    ensures sound { IsSound m.new }
{
    let right = number(&mut m.stack);
    let left = number(&mut m.stack);
    put(&mut m.stack, Word::Int(result_of(op, left, right)));
    m.place += 1;
}

/// Whether a comparison holds.
fn holds(op: CompareOp, left: i64, right: i64) -> bool
    ensures { result ≡ compare_result op left right }
{
    match op {
        CompareOp::Equal => left == right,
        CompareOp::Less => left < right,
        CompareOp::AtMost => left <= right,
    }
}

/// Takes the right and the left operand, and pushes whether the comparison holds.
#[tactic(auto, using(crate::proofs::Lists::stack_snoc, crate::proofs::Lists::below_snoc, crate::proofs::Lists::below_init_is))]
pub fn compare(m: &mut Machine, op: CompareOp)
    requires sound { IsSound m.old }
    requires finds { CanMake (i.Compare op) m.old }
    requires room { HasRoom m.old }
    ensures does { Makes (i.Compare op) m.old m.new }
    ensures advances { Advances m.old m.new }
    ensures sound { IsSound m.new }
{
    let right = number(&mut m.stack);
    let left = number(&mut m.stack);
    put(&mut m.stack, Word::Bool(holds(op, left, right)));
    m.place += 1;
}

/// Takes a cell for the words that were popped, and pushes it.
fn push_cell(m: &mut Machine, cell: Cell)
    requires sound { IsSound m.old }
    requires names { NamesBelow (length m.old.heap.cells) cell }
    requires free { m.old.cells < m.old.limit }
    requires popped { vec_len m.old.stack < vec_capacity m.old.stack }
    requires room { HasRoom m.old }
    ensures does { PushesCell (value_held (held_of (held m.old.heap.cells) cell)) m.old m.new }
    ensures advances { Advances m.old m.new }
    ensures sound { IsSound m.new }
{
    let number = m.heap.add(cell);
    put(&mut m.stack, Word::Cell(number));
    m.cells += 1;
    m.place += 1;
}

/// Takes a cell for a pair.
#[tactic(auto, using(crate::proofs::Lists::stack_snoc, crate::proofs::Lists::length_stack, crate::proofs::Lists::below_init_is, crate::proofs::Lists::below_last_is))]
pub fn pair(m: &mut Machine)
    requires sound { IsSound m.old }
    requires finds { CanMake i.Pair m.old }
    requires free { m.old.cells < m.old.limit }
    requires room { HasRoom m.old }
    ensures does { Makes i.Pair m.old m.new }
    ensures advances { Advances m.old m.new }
    ensures sound { IsSound m.new }
{
    let second = pop(&mut m.stack);
    let first = pop(&mut m.stack);
    push_cell(m, Cell::Pair(first, second));
}

/// Takes a cell for an element of a list.
#[tactic(auto, using(crate::proofs::Lists::stack_snoc, crate::proofs::Lists::length_stack, crate::proofs::Lists::below_init_is, crate::proofs::Lists::below_last_is))]
pub fn cons(m: &mut Machine)
    requires sound { IsSound m.old }
    requires finds { CanMake i.Cons m.old }
    requires free { m.old.cells < m.old.limit }
    requires room { HasRoom m.old }
    ensures does { Makes i.Cons m.old m.new }
    ensures advances { Advances m.old m.new }
    ensures sound { IsSound m.new }
{
    let tail = pop(&mut m.stack);
    let head = pop(&mut m.stack);
    push_cell(m, Cell::Cons(head, tail));
}

/// Takes a cell for a node.
#[tactic(auto, using(crate::proofs::Lists::stack_snoc, crate::proofs::Lists::length_stack, crate::proofs::Lists::below_init_is, crate::proofs::Lists::below_last_is))]
pub fn node(m: &mut Machine)
    requires sound { IsSound m.old }
    requires finds { CanMake i.Node m.old }
    requires free { m.old.cells < m.old.limit }
    requires room { HasRoom m.old }
    ensures does { Makes i.Node m.old m.new }
    ensures advances { Advances m.old m.new }
    ensures sound { IsSound m.new }
{
    let right = pop(&mut m.stack);
    let left = pop(&mut m.stack);
    let element = pop(&mut m.stack);
    push_cell(m, Cell::Node(element, left, right));
}

/// Takes a cell for the content of `some`.
#[tactic(auto, using(crate::proofs::Lists::stack_snoc, crate::proofs::Lists::length_stack, crate::proofs::Lists::below_init_is, crate::proofs::Lists::below_last_is))]
pub fn some(m: &mut Machine)
    requires sound { IsSound m.old }
    requires finds { CanMake i.Some m.old }
    requires free { m.old.cells < m.old.limit }
    requires room { HasRoom m.old }
    ensures does { Makes i.Some m.old m.new }
    ensures advances { Advances m.old m.new }
    ensures sound { IsSound m.new }
{
    let content = pop(&mut m.stack);
    push_cell(m, Cell::Just(content));
}

/// Pops a pair and appends its parts to the locals.
pub fn unpair(m: &mut Machine) -> Result<(), AllocError>
    requires sound { IsSound m.old }
    requires finds { CanMake i.Unpair m.old }
    requires room { HasRoom m.old }
    ensures does { OnOk result (Makes i.Unpair m.old m.new) }
    ensures advances { OnOk result (Advances m.old m.new) }
    ensures stays { OnErr result (Stays m.old m.new) }
    ensures sound { IsSound m.new }
{
    m.locals.reserve(2)?;
    let word = pop(&mut m.stack);
    let (first, second) = pair_parts(&m.heap, word);
    put(&mut m.locals, first);
    put(&mut m.locals, second);
    m.place += 1;
    Ok(())
}

/// Pops a list: goes to a place where it is empty, and else appends head and tail to the locals.
pub fn case_list(m: &mut Machine, to: u32) -> Result<(), AllocError>
    requires sound { IsSound m.old }
    requires finds { CanMake (i.CaseList to) m.old }
    requires room { HasRoom m.old }
    ensures does { OnOk result (Makes (i.CaseList to) m.old m.new) }
    ensures advances { OnOk result (Advances m.old m.new) }
    ensures stays { OnErr result (Stays m.old m.new) }
    ensures sound { IsSound m.new }
{
    m.locals.reserve(2)?;
    let word = pop(&mut m.stack);
    match list_parts(&m.heap, word) {
        Some((head, tail)) => {
            put(&mut m.locals, head);
            put(&mut m.locals, tail);
            m.place += 1;
        }
        None => m.place = to as usize,
    }
    Ok(())
}

/// Pops a tree: goes to a place where it is a leaf, and else appends element, left and right tree to the
/// locals.
pub fn case_tree(m: &mut Machine, to: u32) -> Result<(), AllocError>
    requires sound { IsSound m.old }
    requires finds { CanMake (i.CaseTree to) m.old }
    requires room { HasRoom m.old }
    ensures does { OnOk result (Makes (i.CaseTree to) m.old m.new) }
    ensures advances { OnOk result (Advances m.old m.new) }
    ensures stays { OnErr result (Stays m.old m.new) }
    ensures sound { IsSound m.new }
{
    m.locals.reserve(3)?;
    let word = pop(&mut m.stack);
    match tree_parts(&m.heap, word) {
        Some((element, left, right)) => {
            put(&mut m.locals, element);
            put(&mut m.locals, left);
            put(&mut m.locals, right);
            m.place += 1;
        }
        None => m.place = to as usize,
    }
    Ok(())
}

/// Pops an option: goes to a place where it is `none`, and else appends the content to the locals.
pub fn case_option(m: &mut Machine, to: u32) -> Result<(), AllocError>
    requires sound { IsSound m.old }
    requires finds { CanMake (i.CaseOption to) m.old }
    requires room { HasRoom m.old }
    ensures does { OnOk result (Makes (i.CaseOption to) m.old m.new) }
    ensures advances { OnOk result (Advances m.old m.new) }
    ensures stays { OnErr result (Stays m.old m.new) }
    ensures sound { IsSound m.new }
{
    m.locals.reserve(1)?;
    let word = pop(&mut m.stack);
    match content(&m.heap, word) {
        Some(content) => {
            put(&mut m.locals, content);
            m.place += 1;
        }
        None => m.place = to as usize,
    }
    Ok(())
}
