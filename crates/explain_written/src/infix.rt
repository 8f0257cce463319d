// Operators between two operands.
use raml_syntax::{ArithOp, CompareOp};

/// How tightly an expression has to hold together where it stands, the least tight first.
#[derive(Clone, Copy, PartialEq, Eq, Debug)]
pub enum Level {
    Expression,
    Cons,
    Sum,
    Product,
    Atom,
}

impl Level {
    fn rank(self) -> u8 {
        match self {
            Level::Expression => 0,
            Level::Cons => 1,
            Level::Sum => 2,
            Level::Product => 3,
            Level::Atom => 4,
        }
    }

    /// Whether what holds together as tightly as `other` stands in parentheses here.
    pub fn groups(self, other: Level) -> bool {
        self.rank() > other.rank()
    }
}

/// An operator: its text, how tightly it holds together, and how tightly its operands have to.
#[derive(Clone, Copy)]
pub struct Infix {
    pub text: &'static str,
    pub level: Level,
    pub left: Level,
    pub right: Level,
}

/// `::`.
pub fn cons() -> Infix {
    Infix {
        text: " :: ",
        level: Level::Cons,
        left: Level::Sum,
        right: Level::Cons,
    }
}

fn comparison(text: &'static str) -> Infix {
    Infix {
        text,
        level: Level::Expression,
        left: Level::Cons,
        right: Level::Cons,
    }
}

pub fn compare(op: CompareOp) -> Infix {
    match op {
        CompareOp::Equal => comparison(" = "),
        CompareOp::Less => comparison(" < "),
        CompareOp::AtMost => comparison(" <= "),
    }
}

fn sum(text: &'static str) -> Infix {
    Infix {
        text,
        level: Level::Sum,
        left: Level::Sum,
        right: Level::Product,
    }
}

fn product(text: &'static str) -> Infix {
    Infix {
        text,
        level: Level::Product,
        left: Level::Product,
        right: Level::Atom,
    }
}

pub fn arith(op: ArithOp) -> Infix {
    match op {
        ArithOp::Add => sum(" + "),
        ArithOp::Sub => sum(" - "),
        ArithOp::Mul => product(" * "),
        ArithOp::Div => product(" div "),
        ArithOp::Mod => product(" mod "),
    }
}
