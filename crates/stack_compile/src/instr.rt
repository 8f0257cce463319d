// Instructions of the stack machine.
use raml_syntax::{CompareOp, FunId};

/// An instruction. Places count from 0 in each function, and so do locals in each call.
#[derive(Clone, Copy, Debug, PartialEq, Eq)]
pub enum Instr {
    /// Pushes a number.
    Int(i64),
    /// Pushes a truth.
    Bool(bool),
    /// Pushes the empty list, which is also the leaf and `none`.
    Empty,
    /// Pushes a local.
    Load(u32),
    /// Pops a value and appends it to the locals.
    Bind,
    /// Removes so many of the last locals.
    Unbind(u32),
    Add,
    Sub,
    Mul,
    Div,
    Mod,
    /// Compares two integers.
    Compare(CompareOp),
    /// Negates the truth on top.
    Not,
    /// Pops the second part and the first, takes a cell and pushes it.
    Pair,
    /// Pops a tail and a head, takes a cell and pushes it.
    Cons,
    /// Pops the right tree, the left tree and the element, takes a cell and pushes it.
    Node,
    /// Pops the content, takes a cell and pushes it.
    Some,
    /// Pops a pair, and appends its two parts to the locals.
    Unpair,
    /// Pops a list: goes to the place where it is empty, and else appends head and tail to the locals.
    CaseList(u32),
    /// Pops a tree: goes to the place where it is a leaf, and else appends element, left and right tree
    /// to the locals.
    CaseTree(u32),
    /// Pops an option: goes to the place where it is `none`, and else appends the content to the locals.
    CaseOption(u32),
    /// Pops a truth, and goes to the place where it is false.
    Branch(u32),
    /// Goes to the place.
    Jump(u32),
    /// Pops the arguments, the last of them on top, and enters the function.
    Call(FunId),
    /// Leaves the function; its value stays on top. From the first function the machine halts.
    Return,
    /// Adds so many ticks.
    Tick(u32),
}
