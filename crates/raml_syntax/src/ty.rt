// Types.
ghost use Rattle.std.specs.Prelude.{◌≡◌, ◌↔◌, IsTrue, IfOk};
ghost use Rattle.raml_syntax.specs.Read.{ty_of};

use std::alloc::{AllocError, Global};

/// A type.
#[derive(Debug, Drop)]
pub enum Ty {
    /// Integers of 64 bits, signed.
    Int,
    Bool,
    /// Pairs of a first and a second part.
    Pair(Box<Ty>, Box<Ty>),
    /// Lists of elements of one type.
    List(Box<Ty>),
    /// Binary trees with an element at each node.
    Tree(Box<Ty>),
    /// A value of the type, or none.
    Opt(Box<Ty>),
}

impl Ty {
    /// Whether both types are equal.
    pub fn same(&self, other: &Ty) -> bool
        ensures { IsTrue result ↔ (ty_of self.now ≡ ty_of other.now) }
    {
        match self {
            Ty::Int => matches!(other, Ty::Int),
            Ty::Bool => matches!(other, Ty::Bool),
            Ty::Pair(first, second) => match other {
                Ty::Pair(left, right) => first.same(left) && second.same(right),
                Ty::Int | Ty::Bool | Ty::List(_) | Ty::Tree(_) | Ty::Opt(_) => false,
            },
            Ty::List(element) => match other {
                Ty::List(item) => element.same(item),
                Ty::Int | Ty::Bool | Ty::Pair(..) | Ty::Tree(_) | Ty::Opt(_) => false,
            },
            Ty::Tree(element) => match other {
                Ty::Tree(item) => element.same(item),
                Ty::Int | Ty::Bool | Ty::Pair(..) | Ty::List(_) | Ty::Opt(_) => false,
            },
            Ty::Opt(content) => match other {
                Ty::Opt(item) => content.same(item),
                Ty::Int | Ty::Bool | Ty::Pair(..) | Ty::List(_) | Ty::Tree(_) => false,
            },
        }
    }

    /// A copy of the type, as deep as it is.
    pub fn copy(&self, alloc: Global) -> Result<Ty, AllocError>
        ensures { IfOk result (λ ty. ty_of ty ≡ ty_of self.now) }
    {
        Ok(match self {
            Ty::Int => Ty::Int,
            Ty::Bool => Ty::Bool,
            Ty::Pair(first, second) => Ty::Pair(
                Box::new(alloc, first.copy(alloc)?)?,
                Box::new(alloc, second.copy(alloc)?)?,
            ),
            Ty::List(element) => Ty::List(Box::new(alloc, element.copy(alloc)?)?),
            Ty::Tree(element) => Ty::Tree(Box::new(alloc, element.copy(alloc)?)?),
            Ty::Opt(content) => Ty::Opt(Box::new(alloc, content.copy(alloc)?)?),
        })
    }
}
