// Types and forms, and the memory that they take.
ghost use Rattle.std.specs.Prelude.{◌≡◌, IfOk};
ghost use Rattle.raml_syntax.specs.Read.{ty_of};
ghost use Rattle.raml_syntax.specs.Tree as t;
ghost use Rattle.normal_spec.specs.Read.{form_of};
ghost use Rattle.normal_operands.specs.Types.{lent};
ghost use Rattle.normal_operands.specs.Read.{norm_in};

use crate::types::TyRef;
use normal_spec::{NormExpr, NormForm};
use raml_syntax::Ty;
use std::alloc::{AllocError, Global};

/// How many nodes of types may be made for one program.
const MOST_TYPE_NODES: u32 = 1 << 23;

/// Makes types and forms. A program may double a type at each `let`, so the nodes of types are counted;
/// past the most of them memory is wanting.
#[derive(Drop)]
pub struct Maker {
    pub(crate) alloc: Global,
    /// How many nodes of types may still be made.
    room: u32,
}

impl Maker {
    /// One for the forms of one program.
    pub fn new(alloc: Global) -> Maker {
        Maker {
            alloc,
            room: MOST_TYPE_NODES,
        }
    }

    /// A type in memory of its own: one more node.
    fn boxed(&mut self, ty: Ty) -> Result<Box<Ty>, AllocError>
        ensures { IfOk result (λ boxed. ty_of boxed.value ≡ ty_of ty) }
    {
        match self.room.checked_sub(1) {
            Some(room) => {
                self.room = room;
                Ok(Box::new(self.alloc, ty)?)
            }
            None => Err(AllocError),
        }
    }

    /// The type of pairs.
    pub(crate) fn pair(&mut self, first: Ty, second: Ty) -> Result<Ty, AllocError>
        ensures { IfOk result (λ ty. ty_of ty ≡ t.PairOf (ty_of first) (ty_of second)) }
    {
        let first = self.boxed(first)?;
        Ok(Ty::Pair(first, self.boxed(second)?))
    }

    /// The type of lists.
    pub(crate) fn list(&mut self, element: Ty) -> Result<Ty, AllocError>
        ensures { IfOk result (λ ty. ty_of ty ≡ t.ListOf (ty_of element)) }
    {
        Ok(Ty::List(self.boxed(element)?))
    }

    /// The type of trees.
    pub(crate) fn tree(&mut self, element: Ty) -> Result<Ty, AllocError>
        ensures { IfOk result (λ ty. ty_of ty ≡ t.TreeOf (ty_of element)) }
    {
        Ok(Ty::Tree(self.boxed(element)?))
    }

    /// The type of options.
    pub(crate) fn option(&mut self, content: Ty) -> Result<Ty, AllocError>
        ensures { IfOk result (λ ty. ty_of ty ≡ t.OptionOf (ty_of content)) }
    {
        Ok(Ty::Opt(self.boxed(content)?))
    }

    /// A copy of a type.
    pub(crate) fn copy(&mut self, ty: &Ty) -> Result<Ty, AllocError>
        ensures { IfOk result (λ copy. ty_of copy ≡ ty_of ty.now) }
    {
        match ty {
            Ty::Int => Ok(Ty::Int),
            Ty::Bool => Ok(Ty::Bool),
            Ty::Pair(first, second) => {
                let first = self.copy(first)?;
                let second = self.copy(second)?;
                self.pair(first, second)
            }
            Ty::List(element) => {
                let element = self.copy(element)?;
                self.list(element)
            }
            Ty::Tree(element) => {
                let element = self.copy(element)?;
                self.tree(element)
            }
            Ty::Opt(content) => {
                let content = self.copy(content)?;
                self.option(content)
            }
        }
    }

    /// A copy of a type that is lent.
    pub(crate) fn owned(&mut self, ty: TyRef) -> Result<Ty, AllocError>
        ensures { IfOk result (λ copy. ty_of copy ≡ lent ty.entry) }
    {
        match ty {
            TyRef::Int => Ok(Ty::Int),
            TyRef::Bool => Ok(Ty::Bool),
            TyRef::Of(ty) => self.copy(ty),
        }
    }

    /// A form with its nodes.
    pub(crate) fn form(&self, nodes: u32, form: NormForm) -> Result<Box<NormExpr>, AllocError>
        ensures { IfOk result (λ made. norm_in made ≡ form_of form nodes) }
    {
        Ok(Box::new(self.alloc, NormExpr { nodes, form })?)
    }
}
