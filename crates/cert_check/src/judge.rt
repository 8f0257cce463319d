// The judge of a block's conditions.
ghost use Rattle.std.specs.Prelude.{◌≡◌, ◌+◌, cond, ℕ, List, Some, None, IfOk, OnOk};
ghost use Rattle.std.specs.Option.{option_map};
ghost use Rattle.rules_spec.specs.Capped.{capped};
ghost use Rattle.rules_spec.specs.Faults.{Leaves, Fails, fault_at, first_fault};
ghost use Rattle.rules_spec.specs.Walk.{at, against, numbered};
ghost use Rattle.cert_check.specs.Judged.{located, found_of, verdict_of, after};

use rules_walk::{Amount, Judge};
use smallvec::SmallVec;
use std::alloc::{AllocError, Global};

// The least number that is no number of 127 bits.
const TOO_GREAT: u128 = 170_141_183_460_469_231_731_687_303_715_884_105_728;

/// What is wrong with a condition: a total leaves 127 bits, or it is not met.
#[derive(Clone, Copy, Debug, PartialEq, Eq)]
pub enum Trouble {
    Leaves,
    Fails,
}

/// A condition with trouble.
#[derive(Debug, Drop)]
pub struct Found {
    pub trouble: Trouble,
    pub path: SmallVec<u32, 8>,
    pub index: usize,
}

/// Keeps the first condition with trouble.
#[derive(Drop)]
pub struct FaultJudge {
    pub found: Option<Found>,
}

fn trouble_of(leaves: bool, fails: bool) -> Option<Trouble>
    ensures { (path : List ℕ) (index : ℕ) →
        option_map (located path index) result ≡ cond leaves (Some (Leaves path index)) (cond fails (Some (Fails path index)) None) }
{
    if leaves {
        return Some(Trouble::Leaves);
    }
    if fails {
        return Some(Trouble::Fails);
    }
    None
}

// The totals of a condition are tried, and then compared.
fn compare(left: &Amount, right: &Amount) -> Option<Trouble>
    ensures { (path : List ℕ) (index : ℕ) →
        option_map (located path index) result ≡ fault_at (record { path = path; index = index; left = left.now; right = right.now }) }
{
    let total_left = left.plus().saturating_add(right.minus());
    let total_right = right.plus().saturating_add(left.minus());
    trouble_of(
        total_left >= TOO_GREAT || total_right >= TOO_GREAT,
        total_left < total_right,
    )
}

// The left side is that at a place; nothing where there is no such place.
fn compare_at(left: &[Amount], place: usize, right: &Amount) -> Option<Trouble>
    ensures { (path : List ℕ) (index : ℕ) → option_map (located path index) result
        ≡ fault_at (record { path = path; index = index; left = at capped left.now place; right = right.now }) }
{
    match left.get(place) {
        Some(entry) => compare(entry, right),
        None => compare(&Amount::of(0), right),
    }
}

fn locate(
    alloc: Global,
    path: &[u32],
    index: usize,
    trouble: Trouble,
) -> Result<Option<Found>, AllocError>
    ensures { IfOk result (λ found. option_map found_of found ≡ Some (located path.now index trouble)) }
{
    Ok(Some(Found {
        trouble,
        path: SmallVec::from_slice(alloc, path)?,
        index,
    }))
}

// The first condition with trouble of those at a path, from an index on.
fn first_found(
    alloc: Global,
    path: &[u32],
    index: usize,
    left: &[Amount],
    right: &[Amount],
) -> Result<Option<Found>, AllocError>
    ensures { IfOk result (λ found. option_map found_of found ≡ first_fault (numbered path.now index (against capped left.now right.now))) }
{
    for place in 0..right.len() {
        if let Some(trouble) = compare_at(left, place, &right[place]) {
            // so many conditions have no room in memory
            let Some(number) = index.checked_add(place) else {
                return Err(AllocError);
            };
            return locate(alloc, path, number, trouble);
        }
    }
    Ok(None)
}

impl Judge<Amount> for FaultJudge {
    ghost use Rattle.std.specs.Prelude.{Option};
    ghost use Rattle.rules_spec.specs.Faults.{Fault};
    ghost use Rattle.cert_check.specs.Judged.{verdict_of, after, silent, in_turn};

    ghost Verdict = { Option Fault };

    ghost verdict = { verdict_of };

    ghost after = { after };

    fn hear(
        &mut self,
        alloc: Global,
        path: &[u32],
        index: usize,
        left: &[Amount],
        right: &[Amount],
    ) -> Result<(), AllocError>
        ensures { OnOk result (verdict_of self.new
            ≡ after (verdict_of self.old) (numbered path.now index (against capped left.now right.now))) }
    {
        if self.found.is_some() {
            return Ok(());
        }
        self.found = first_found(alloc, path, index, left, right)?;
        Ok(())
    }

    ghost silent = { silent };

    ghost in_turn = { in_turn };
}
