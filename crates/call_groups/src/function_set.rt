// Sets of functions.
ghost use Rattle.std.specs.Prelude.{◌≡◌, ◌≤◌, ◌<◌, ◌↔◌, IfOk, IsTrue, length};
ghost use Rattle.std.specs.List.{filter, range_with_len};
ghost use Rattle.call_groups.specs.Read.{ids_of};
ghost use Rattle.call_groups.specs.Sets.{has, none, with_one, joined, shared, without, IsSubset};

use raml_syntax::FunId;
use std::alloc::{AllocError, Global};

/// A set of functions, by their places below 256.
#[derive(Clone, Copy)]
pub struct FunctionSet {
    /// A bit for each function below 128.
    pub low: u128,
    /// A bit for each function from 128 on.
    pub high: u128,
}

impl FunctionSet {
    /// The set of no functions.
    #[tactic(auto, using(crate::proofs::Sets::has_none))]
    pub fn empty() -> FunctionSet
        ensures { has result ≡ none }
    {
        FunctionSet { low: 0, high: 0 }
    }

    /// Whether the set has a function.
    pub fn contains(&self, fun: usize) -> bool
        ensures { result ≡ has self.now fun }
    {
        if fun < 128 {
            self.low >> fun & 1 == 1
        } else {
            fun < 256 && self.high >> (fun - 128) & 1 == 1
        }
    }

    /// Adds a function.
    pub fn insert(&mut self, fun: usize)
        requires { fun < 256 }
        ensures { has self.new ≡ with_one fun (has self.old) }
    {
        if fun < 128 {
            self.low |= 1 << fun;
        } else {
            self.high |= 1 << (fun - 128);
        }
    }

    /// Adds the functions of another set.
    #[tactic(auto, using(crate::proofs::Sets::has_joined))]
    pub fn insert_all(&mut self, other: &FunctionSet)
        ensures { has self.new ≡ joined (has self.old) (has other.now) }
    {
        self.low |= other.low;
        self.high |= other.high;
    }

    /// The functions of both sets.
    #[tactic(auto, using(crate::proofs::Sets::has_shared))]
    pub fn intersection(&self, other: &FunctionSet) -> FunctionSet
        ensures { has result ≡ shared (has self.now) (has other.now) }
    {
        FunctionSet {
            low: self.low & other.low,
            high: self.high & other.high,
        }
    }

    /// The functions that the other set does not have.
    pub fn difference(&self, other: &FunctionSet) -> FunctionSet
        ensures { has result ≡ without (has self.now) (has other.now) }
    {
        FunctionSet {
            low: self.low & !other.low,
            high: self.high & !other.high,
        }
    }

    /// Whether the other set has each function of this one.
    pub fn is_subset(&self, other: &FunctionSet) -> bool
        ensures { IsTrue result ↔ IsSubset (has self.now) (has other.now) }
    {
        let rest = self.difference(other);
        rest.low == 0 && rest.high == 0
    }

    /// The functions of the set below a number, ascending.
    pub fn functions(&self, alloc: Global, count: usize) -> Result<Vec<FunId>, AllocError>
        requires { count ≤ 256 }
        ensures { IfOk result (λ funs. ids_of funs.items ≡ filter (has self.now) (range_with_len 0 count)) }
    {
        let mut funs = Vec::new(alloc);
        for fun in 0..count {
            if self.contains(fun) {
                funs.push(FunId(fun as u32))?;
            }
        }
        Ok(funs)
    }
}
