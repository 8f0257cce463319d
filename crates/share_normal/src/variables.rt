// Sets of variables.
ghost use Rattle.std.specs.Prelude.{◌≡◌, ℕ, IfOk};
ghost use Rattle.normal_spec.specs.Free as free;

use std::alloc::AllocError;
use std::marker::Model;

/// A set of variables, which ascend.
#[derive(Drop)]
pub struct Variables {
    ascending: Vec<u32>,
}

impl Model for Variables {
    ghost use Rattle.std.specs.Prelude.{ℕ, List};
    ghost use Rattle.std.specs.List.Sorted.{IsStrictlyIncreasing};

    ghost Value = { List ℕ };

    ghost view = { λ set. set.ascending.items };

    ghost invariant = { λ set. IsStrictlyIncreasing set.ascending.items };
}

/// Whether the variable is one of some others.
pub fn among(variable: u32, others: &[u32]) -> bool
    ensures { result ≡ free.among variable others.now }
{
    others.contains(&variable)
}

impl Variables {
    /// The set of some variables.
    pub fn new(variables: Vec<u32>) -> Result<Variables, AllocError>
        ensures { IfOk result (λ set. (x : ℕ) → free.among x set ≡ free.among x variables.items) }
    {
        let mut ascending = variables;
        ascending.sort()?;
        ascending.dedup();
        Ok(Variables { ascending })
    }

    /// Whether the variable is one of the set.
    pub fn contains(&self, variable: u32) -> bool
        ensures { result ≡ free.among variable self.now }
    {
        self.ascending.binary_search(&variable).is_ok()
    }

    /// The variables.
    pub fn as_slice(&self) -> &[u32]
        ensures { result.now ≡ self.now }
    {
        &self.ascending
    }
}
