// Expressions.
use crate::name::Name;
use crate::ty::Ty;

/// A place in the source, in bytes from its start.
#[derive(Clone, Copy, PartialEq, Eq, Debug)]
pub struct Pos(pub u32);

/// A name that is bound, and the place where it stands.
#[derive(Debug, Drop)]
pub struct Binder {
    pub at: Pos,
    pub name: Name,
}

/// An arithmetic operator.
#[derive(Clone, Copy, PartialEq, Eq, Debug)]
pub enum ArithOp {
    Add,
    Sub,
    Mul,
    Div,
    Mod,
}

/// A comparison of integers.
#[derive(Clone, Copy, PartialEq, Eq, Debug)]
pub enum CompareOp {
    Equal,
    Less,
    AtMost,
}

/// An expression, with the place of its first token.
#[cycle(expression)]
#[derive(Debug, Drop)]
pub struct Expr {
    pub at: Pos,
    pub form: Form,
}

/// The form of an expression.
#[cycle(expression)]
#[derive(Debug, Drop)]
pub enum Form {
    Number(i64),
    Truth(bool),
    Nil,
    Leaf,
    /// `none`.
    Nothing,
    Var(Name),
    /// An operator, its left and its right operand.
    Arith(ArithOp, Box<Expr>, Box<Expr>),
    /// A comparison, its left and its right operand.
    Compare(CompareOp, Box<Expr>, Box<Expr>),
    Not(Box<Expr>),
    Pair(Box<Expr>, Box<Expr>),
    /// A head before a tail.
    Cons(Box<Expr>, Box<Expr>),
    /// An element with the trees to its left and to its right.
    Node(Box<Expr>, Box<Expr>, Box<Expr>),
    /// `some` of a value.
    Just(Box<Expr>),
    /// A call of the function of this name.
    Call(Name, Vec<Expr>),
    /// `let x = bound in rest`.
    Let(Binder, Box<Expr>, Box<Expr>),
    /// `let (x, y) = bound in rest`.
    LetPair(Binder, Binder, Box<Expr>, Box<Expr>),
    /// A condition, and the branches for true and for false.
    If(Box<Expr>, Box<Expr>, Box<Expr>),
    /// `match subject with nil -> empty | head :: tail -> rest`, in this order.
    MatchList(Box<Expr>, Box<Expr>, Binder, Binder, Box<Expr>),
    /// `match subject with leaf -> empty | node(element, left, right) -> rest`, in this order.
    MatchTree(Box<Expr>, Box<Expr>, Binder, Binder, Binder, Box<Expr>),
    /// `match subject with none -> empty | some(content) -> rest`, in this order.
    MatchOption(Box<Expr>, Box<Expr>, Binder, Box<Expr>),
    /// A number of ticks, and then the expression.
    Tick(u32, Box<Expr>),
    /// An expression with its type.
    Typed(Box<Expr>, Ty),
}
