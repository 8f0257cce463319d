// Indices, their order and their hash.
ghost use Rattle.std.specs.Prelude.{◌≡◌, ◌<◌, ◌^◌, refl, fold, IfOk, map};
ghost use Rattle.std.specs.Ordering.{on, eq_by_cmp, as_partial_cmp};
ghost use Rattle.std.specs.Cmp.{partial_equiv_from_equiv, partial_order_from_total};
ghost use Rattle.std.proofs.lemmas.Cmp.{on_total, on_equiv, eq_by_cmp_equiv};
ghost use Rattle.raml_syntax.specs.Read.{ty_of};
ghost use Rattle.base_poly.specs.Plain.{many, deg, capped, order, writes};
ghost use Rattle.base_poly.specs.Indices.{zero_of};
ghost use Rattle.base_poly.specs.Read.{index_of, plains_of};
ghost use Rattle.base_poly.specs.Total.{order_total, writes_alike};

use raml_syntax::Ty;
use std::alloc::{AllocError, Global};
use std::cmp::Ordering;
use std::hash::{Hash, Hasher};

/// An index of a type. It names a base polynomial of the type's values.
#[derive(Debug, Drop)]
pub enum Index {
    /// The index of integers and of booleans.
    Unit,
    /// An index of each part of a pair.
    Pair(Box<Index>, Box<Index>),
    /// Indices of elements of a list or tree.
    List(Vec<Index>),
    /// No index, or one of what an option holds.
    Opt(Option<Box<Index>>),
}

impl Index {
    /// The index of degree 0 of a type, which it has alone, and which counts 1 at every value.
    pub fn zero(alloc: Global, ty: &Ty) -> Result<Index, AllocError>
        ensures { IfOk result (λ found. index_of found ≡ zero_of (ty_of ty.now)) }
    {
        match ty {
            Ty::Int | Ty::Bool => Ok(Index::Unit),
            Ty::Pair(first, second) => Ok(Index::Pair(
                Box::new(alloc, Index::zero(alloc, first)?)?,
                Box::new(alloc, Index::zero(alloc, second)?)?,
            )),
            Ty::List(_) | Ty::Tree(_) => Ok(Index::List(Vec::new(alloc))),
            Ty::Opt(_) => Ok(Index::Opt(None)),
        }
    }

    /// The degree: the number of entries of all lists and options in the index.
    pub fn degree(&self) -> u32
        requires { deg (index_of self.now) < 2 ^ 32 }
        ensures { result ≡ deg (index_of self.now) }
    {
        self.capped_degree()
    }

    /// The degree, or 2^32 - 1 where it is greater.
    #[cycle(degree)]
    pub(crate) fn capped_degree(&self) -> u32
        ensures { result ≡ capped (deg (index_of self.now)) }
    {
        match self {
            Index::Unit => 0,
            Index::Pair(first, second) => {
                first.capped_degree().saturating_add(second.capped_degree())
            }
            Index::List(entries) => degree_of_entries(entries),
            Index::Opt(None) => 0,
            Index::Opt(Some(entry)) => entry.capped_degree().saturating_add(1),
        }
    }

    /// A copy.
    #[cycle(copy)]
    pub fn copy(&self, alloc: Global) -> Result<Index, AllocError>
        ensures { IfOk result (λ copy. index_of copy ≡ index_of self.now) }
    {
        match self {
            Index::Unit => Ok(Index::Unit),
            Index::Pair(first, second) => Ok(Index::Pair(
                Box::new(alloc, first.copy(alloc)?)?,
                Box::new(alloc, second.copy(alloc)?)?,
            )),
            Index::List(entries) => Ok(Index::List(copy_all(alloc, entries)?)),
            Index::Opt(entry) => match entry {
                None => Ok(Index::Opt(None)),
                Some(entry) => Ok(Index::Opt(Some(Box::new(alloc, entry.copy(alloc)?)?))),
            },
        }
    }

    // The order of indices.
    #[cycle(order)]
    fn order(&self, other: &Index) -> Ordering
        ensures { result ≡ order (index_of self.now) (index_of other.now) }
    {
        match self {
            Index::Unit => match other {
                Index::Unit => Ordering::Equal,
                Index::Pair(..) | Index::List(_) | Index::Opt(_) => Ordering::Less,
            },
            Index::Pair(first, second) => match other {
                Index::Unit => Ordering::Greater,
                Index::Pair(left, right) => match first.order(left) {
                    Ordering::Less => Ordering::Less,
                    Ordering::Equal => second.order(right),
                    Ordering::Greater => Ordering::Greater,
                },
                Index::List(_) | Index::Opt(_) => Ordering::Less,
            },
            Index::List(entries) => match other {
                Index::Unit | Index::Pair(..) => Ordering::Greater,
                Index::List(items) => order_of_all(entries, items),
                Index::Opt(_) => Ordering::Less,
            },
            Index::Opt(None) => match other {
                Index::Unit | Index::Pair(..) | Index::List(_) => Ordering::Greater,
                Index::Opt(None) => Ordering::Equal,
                Index::Opt(Some(_)) => Ordering::Less,
            },
            Index::Opt(Some(entry)) => match other {
                Index::Unit | Index::Pair(..) | Index::List(_) => Ordering::Greater,
                Index::Opt(None) => Ordering::Greater,
                Index::Opt(Some(item)) => entry.order(item),
            },
        }
    }
}

// Each entry counts for one beside its own degree.
#[cycle(degree)]
fn degree_of_entries(entries: &[Index]) -> u32
    ensures { result ≡ capped (deg (many (plains_of entries.now))) }
{
    let mut sum: u32 = 0;
    for entry in entries {
        sum = sum.saturating_add(1).saturating_add(entry.capped_degree());
    }
    sum
}

#[cycle(copy)]
pub fn copy_all(alloc: Global, indices: &[Index]) -> Result<Vec<Index>, AllocError>
    ensures { IfOk result (λ copies. plains_of copies.items ≡ plains_of indices.now) }
{
    let mut copies = Vec::with_capacity(alloc, indices.len())?;
    for index in indices {
        copies.push(index.copy(alloc)?)?;
    }
    Ok(copies)
}

// Entry by entry, a proper prefix first.
#[cycle(order)]
pub fn order_of_all(entries: &[Index], others: &[Index]) -> Ordering
    ensures { result ≡ order (many (plains_of entries.now)) (many (plains_of others.now)) }
{
    let mut rest = others;
    for entry in entries {
        match rest {
            [] => return Ordering::Greater,
            [first, more @ ..] => match entry.order(first) {
                Ordering::Less => return Ordering::Less,
                Ordering::Equal => rest = more,
                Ordering::Greater => return Ordering::Greater,
            },
        }
    }
    match rest {
        [] => Ordering::Equal,
        [_first, _more @ ..] => Ordering::Less,
    }
}

impl PartialEq for Index {
    ghost eq = { on index_of (eq_by_cmp order) };

    ghost laws = { partial_equiv_from_equiv (on_equiv index_of (eq_by_cmp_equiv order_total)) };

    fn eq(&self, other: &Index) -> bool {
        match self.order(other) {
            Ordering::Equal => true,
            Ordering::Less | Ordering::Greater => false,
        }
    }
}

impl Eq for Index {
    ghost laws = { on_equiv index_of (eq_by_cmp_equiv order_total) };
}

impl PartialOrd for Index {
    ghost partial_cmp = { on index_of (as_partial_cmp order) };

    ghost laws = { partial_order_from_total (on_total index_of order_total) };

    fn partial_cmp(&self, other: &Index) -> Option<Ordering> {
        Some(self.order(other))
    }
}

impl Ord for Index {
    ghost cmp = { on index_of order };

    ghost total = { on_total index_of order_total };

    ghost matches_partial_cmp = { λ x y. refl };

    ghost matches_eq = { λ x y. refl };

    fn cmp(&self, other: &Index) -> Ordering {
        self.order(other)
    }
}

impl Hash for Index {
    ghost hash_input = { λ a. writes (index_of a) };

    ghost respects_eq = { λ x y. writes_alike (index_of x) (index_of y) };

    fn hash<H: Hasher>(&self, state: &mut H) {
        feed(self, state);
    }
}

#[cycle(feed)]
fn feed<H: Hasher>(index: &Index, state: &mut H)
    ensures { state.new ≡ fold H.write state.old (writes (index_of index.now)) }
{
    match index {
        Index::Unit => state.write_u8(1),
        Index::Pair(first, second) => {
            state.write_u8(2);
            feed(first, state);
            feed(second, state);
        }
        Index::List(entries) => feed_all(entries, state),
        Index::Opt(None) => state.write_u8(4),
        Index::Opt(Some(entry)) => {
            state.write_u8(5);
            feed(entry, state);
        }
    }
}

// Each entry stands behind a 3, and the list ends in a 0.
#[cycle(feed)]
pub fn feed_all<H: Hasher>(entries: &[Index], state: &mut H)
    ensures { state.new ≡ fold H.write state.old (writes (many (plains_of entries.now))) }
{
    for entry in entries {
        state.write_u8(3);
        feed(entry, state);
    }
    state.write_u8(0);
}
