// Types at hand, each once.
ghost use Rattle.std.specs.Prelude.{◌≡◌, ◌≤◌, ◌<◌, ◌-◌, IfOk, IfSome, IfNone, SomeIff};
ghost use Rattle.raml_syntax.specs.Read.{ty_of};
ghost use Rattle.simple_types.specs.Table.{base, node_at, placed, among, made_from, types_before, type_of, type_nodes, most_told, numbered};

use indexmap::IndexSet;
use raml_syntax::Ty;
use std::alloc::{AllocError, Global};

/// How many nodes a type has at most that is told in a fault: a program of 1 MiB can't spell one of
/// more, and the text of such a type would help nobody.
const MOST_TOLD: u32 = 1 << 20;

/// A type, by its place among the types at hand.
#[derive(Clone, Copy, PartialEq, Eq, Hash, Debug)]
pub struct TypeId(pub u32);

/// The type of integers, which each table begins with.
pub const INT: TypeId = TypeId(0);

/// The type of truth values, which comes next.
pub const BOOL: TypeId = TypeId(1);

/// A type, with its parts by their places.
#[derive(Clone, Copy, PartialEq, Eq, Hash, Debug)]
pub enum Node {
    Int,
    Bool,
    Pair(TypeId, TypeId),
    List(TypeId),
    Tree(TypeId),
    Opt(TypeId),
}

/// The types at hand. Each stands there once, so two are equal exactly where their places are.
#[derive(Drop)]
pub struct Types {
    pub nodes: IndexSet<Node>,
    pub alloc: Global,
}

impl Types {
    /// Integers and truth values.
    pub fn new(alloc: Global) -> Result<Types, AllocError>
        ensures { IfOk result (λ types. types.nodes.keys ≡ base) }
    {
        let mut types = Types {
            nodes: IndexSet::new(alloc),
            alloc,
        };
        types.place(Node::Int)?;
        types.place(Node::Bool)?;
        Ok(types)
    }

    /// The place of a node, which is added if it is new.
    pub fn place(&mut self, node: Node) -> Result<TypeId, AllocError>
        ensures { IfOk result (λ id. (self.new.nodes.keys, id) ≡ placed self.old.nodes.keys node) }
    {
        match self.nodes.insert_full(node) {
            Ok((place, _)) => match u32::try_from(place) {
                Ok(place) => Ok(TypeId(place)),
                Err(_) => Err(AllocError),
            },
            Err(_) => Err(AllocError),
        }
    }

    /// The place of a type of the program.
    pub fn intern(&mut self, ty: &Ty) -> Result<TypeId, AllocError>
        ensures { IfOk result (λ id. (self.new.nodes.keys, id) ≡ numbered self.old.nodes.keys (ty_of ty.now)) }
    {
        match ty {
            Ty::Int => Ok(INT),
            Ty::Bool => Ok(BOOL),
            Ty::Pair(first, second) => {
                let left = self.intern(first)?;
                let right = self.intern(second)?;
                self.place(Node::Pair(left, right))
            }
            Ty::List(element) => {
                let item = self.intern(element)?;
                self.place(Node::List(item))
            }
            Ty::Tree(element) => {
                let item = self.intern(element)?;
                self.place(Node::Tree(item))
            }
            Ty::Opt(content) => {
                let item = self.intern(content)?;
                self.place(Node::Opt(item))
            }
        }
    }

    /// The node at a place.
    pub fn node(&self, id: TypeId) -> Node
        ensures { result ≡ node_at self.now.nodes.keys id }
    {
        match self.nodes.get_index(id.0 as usize) {
            Some(node) => *node,
            None => Node::Int,
        }
    }

    /// The type at a place, as one of its own; none where it has too many nodes to be told.
    pub fn spell(&self, id: TypeId) -> Result<Option<Ty>, AllocError>
        ensures told { IfOk result (λ told. IfSome told (λ ty. ty_of ty ≡ type_of self.now.nodes.keys id)) }
        ensures small { IfOk result (λ told. IfSome told (λ ty. type_nodes (type_of self.now.nodes.keys id) ≤ most_told)) }
        ensures large { IfOk result (λ told. IfNone told (most_told < type_nodes (type_of self.now.nodes.keys id))) }
    {
        match self.left(id, MOST_TOLD) {
            Some(_) => Ok(Some(self.copy(id)?)),
            None => Ok(None),
        }
    }

    /// What is left of so many nodes behind those of a type; none where it has more.
    #[cycle(left)]
    fn left(&self, id: TypeId, nodes: u32) -> Option<u32>
        ensures { SomeIff result (type_nodes (made_from (types_before self.now.nodes.keys id) (node_at self.now.nodes.keys id)) ≤ nodes)
            (nodes - type_nodes (made_from (types_before self.now.nodes.keys id) (node_at self.now.nodes.keys id))) }
    {
        let nodes = nodes.checked_sub(1)?;
        match self.node(id) {
            Node::Int | Node::Bool => Some(nodes),
            Node::Pair(first, second) => {
                let nodes = self.left_by_part(id, first, nodes)?;
                self.left_by_part(id, second, nodes)
            }
            Node::List(part) | Node::Tree(part) | Node::Opt(part) => {
                self.left_by_part(id, part, nodes)
            }
        }
    }

    /// The same of a part, which stands before the type that it is part of.
    #[cycle(left)]
    fn left_by_part(&self, whole: TypeId, part: TypeId, nodes: u32) -> Option<u32>
        ensures { SomeIff result (type_nodes (among (types_before self.now.nodes.keys whole) part) ≤ nodes)
            (nodes - type_nodes (among (types_before self.now.nodes.keys whole) part)) }
    {
        if part.0 < whole.0 {
            self.left(part, nodes)
        } else {
            nodes.checked_sub(1)
        }
    }

    /// The type at a place, as one of its own.
    #[cycle(copy)]
    fn copy(&self, id: TypeId) -> Result<Ty, AllocError>
        ensures { IfOk result (λ ty. ty_of ty ≡ made_from (types_before self.now.nodes.keys id) (node_at self.now.nodes.keys id)) }
    {
        Ok(match self.node(id) {
            Node::Int => Ty::Int,
            Node::Bool => Ty::Bool,
            Node::Pair(first, second) => Ty::Pair(
                Box::new(self.alloc, self.copy_part(id, first)?)?,
                Box::new(self.alloc, self.copy_part(id, second)?)?,
            ),
            Node::List(part) => Ty::List(Box::new(self.alloc, self.copy_part(id, part)?)?),
            Node::Tree(part) => Ty::Tree(Box::new(self.alloc, self.copy_part(id, part)?)?),
            Node::Opt(part) => Ty::Opt(Box::new(self.alloc, self.copy_part(id, part)?)?),
        })
    }

    /// The same of a part, which stands before the type that it is part of.
    #[cycle(copy)]
    fn copy_part(&self, whole: TypeId, part: TypeId) -> Result<Ty, AllocError>
        ensures { IfOk result (λ ty. ty_of ty ≡ among (types_before self.now.nodes.keys whole) part) }
    {
        if part.0 < whole.0 {
            self.copy(part)
        } else {
            Ok(Ty::Int)
        }
    }
}
