// Where expressions are written.
ghost use Rattle.std.specs.Prelude.{◌≡◌, ◌<◌, IfSome};

use crate::callee::Callee;
use crate::names::Names;
use crate::writer::Writer;
use raml_syntax::{Binder, Expr, Name, Ty};

/// How a value is taken apart, and what follows.
#[derive(Clone, Copy)]
pub enum Apart<'a> {
    Pair {
        first: &'a Binder,
        second: &'a Binder,
        body: &'a Expr,
    },
    List {
        empty: &'a Expr,
        head: &'a Binder,
        tail: &'a Binder,
        body: &'a Expr,
    },
    Tree {
        empty: &'a Expr,
        element: &'a Binder,
        left: &'a Binder,
        right: &'a Binder,
        body: &'a Expr,
    },
    Option {
        empty: &'a Expr,
        content: &'a Binder,
        body: &'a Expr,
    },
}

/// What is done with the value of an expression.
#[derive(Clone, Copy)]
pub enum Rest<'s, 'a> {
    /// It is the value of the whole.
    Whole,
    /// It is taken apart, by code in which names stand for these, and with whose value the rest behind it is done.
    Apart {
        by: Apart<'a>,
        callee: Option<Callee<'a>>,
        names: &'s Names<'s, 'a>,
        number: u32,
        ty: Option<&'a Ty>,
        behind: &'s Rest<'s, 'a>,
    },
}

/// Where an expression is written.
#[derive(Clone, Copy)]
pub struct Place<'s, 'a> {
    /// The function whose calls are written out.
    pub callee: Option<Callee<'a>>,
    /// What stands for names.
    pub names: &'s Names<'s, 'a>,
    /// With which number the names that are bound are written.
    pub number: u32,
    /// What is done with the expression's value.
    pub rest: Rest<'s, 'a>,
    /// The type of its value, where that is known.
    pub ty: Option<&'a Ty>,
    /// How many spaces begin a line.
    pub indent: u32,
    /// How many expressions may still stand in one another.
    pub depth: u32,
}

impl<'s, 'a> Place<'s, 'a> {
    /// The place in an expression; None where no more may be written.
    pub fn inside(self, out: &mut Writer) -> Option<Place<'s, 'a>>
        ensures { IfSome result (λ inner. inner.depth < self.entry.depth) }
    {
        if self.depth == 0 {
            out.refuse();
            return None;
        }
        if !out.takes_one() {
            return None;
        }
        Some(Place {
            depth: self.depth - 1,
            ..self
        })
    }

    /// The place of a part whose value is used where it stands.
    pub fn part(self) -> Place<'s, 'a>
        ensures { result.depth ≡ self.entry.depth }
    {
        Place {
            rest: Rest::Whole,
            ty: None,
            ..self
        }
    }

    /// With more spaces in front.
    pub fn indented(self, more: u32) -> Place<'s, 'a>
        ensures { result.depth ≡ self.entry.depth }
    {
        Place {
            indent: self.indent.saturating_add(more),
            ..self
        }
    }

    /// The function, where a call of this name with these arguments is one that is written out.
    pub fn called(&self, name: &Name, args: &[Expr]) -> Option<Callee<'a>> {
        match self.callee {
            Some(callee) => {
                if callee.is_called(name, args) {
                    Some(callee)
                } else {
                    None
                }
            }
            None => None,
        }
    }
}
