//! One inequality.

ghost use Rattle.std.specs.Prelude.{◌≡◌, ◌+ℤ◌, [], ℕ, pos, IfOk, IfErr, OnOk, OnErr, FitsSigned, IsOk, IsTrue, ◌↔◌, ◌<◌, ◌≤◌, length};
ghost use Rattle.std.specs.Prelude.{vec_len};
ghost use Rattle.std.specs.Int.{w128};
ghost use Rattle.linear_rows.specs.Terms.{SparseRow, Terms, coefficient, IsSparse, AddsAt, IsAt, IsGapFor, number_at, with_number};
ghost use Rattle.linear_rows.specs.Terms.{with_term};

use std::alloc::Global;
use std::marker::Model;

/// A row says that the sum of its terms, each a number times an unknown, is at least its right side.
/// Its terms ascend by unknown, and none has the number 0.
#[derive(Debug, Drop)]
pub struct Row {
    terms: Vec<(u32, i128)>,
    right: i128,
}

/// Why a term was not added.
#[derive(Clone, Copy, PartialEq, Eq, Debug)]
pub enum RowFault {
    /// The new coefficient does not fit 128 bits.
    LeavesRow,
    NoMemory,
}

/// The new right side does not fit 128 bits.
#[derive(Clone, Copy, PartialEq, Eq, Debug)]
pub struct LeavesRow;

impl Model for Row {
    ghost Value = { SparseRow };

    ghost view = { λ r. record { terms = r.terms.items; right = r.right } };

    ghost invariant = { λ r. IsSparse r.terms.items };
}

impl Row {
    /// No terms, and the right side 0.
    pub fn new(alloc: Global) -> Row
        ensures terms { result.terms ≡ [] }
        ensures right { result.right ≡ pos 0 }
    {
        Row {
            terms: Vec::new(alloc),
            right: 0,
        }
    }

    /// The terms, each an unknown and its number.
    pub fn terms(&self) -> &[(u32, i128)]
        ensures all { result.now ≡ self.now.terms }
        ensures sparse { IsSparse self.now.terms }
    {
        &self.terms
    }

    /// The right side.
    pub fn right(&self) -> i128
        ensures { result ≡ self.now.right }
    {
        self.right
    }

    /// The number of an unknown, which is 0 where no term has it.
    pub fn coefficient(&self, unknown: u32) -> i128
        ensures { result ≡ coefficient unknown self.now.terms }
    {
        match self.search(unknown) {
            Ok(at) => self.terms[at].1,
            Err(_) => 0,
        }
    }

    /// Adds `times` to the number of an unknown.
    pub fn add(&mut self, unknown: u32, times: i128) -> Result<(), RowFault>
        ensures added { OnOk result (AddsAt unknown times self.old.terms self.new.terms) }
        ensures right { self.new.right ≡ self.old.right }
        ensures kept { OnErr result (self.new ≡ self.old) }
        ensures fits { OnOk result (FitsSigned w128 (coefficient unknown self.old.terms +ℤ times)) }
        ensures leaves { result ≡ Err RowFault.LeavesRow → ¬ FitsSigned w128 (coefficient unknown self.old.terms +ℤ times) }
    {
        match self.search(unknown) {
            Ok(at) => add_at(&mut self.terms, at, times),
            Err(at) => insert_at(&mut self.terms, at, unknown, times),
        }
    }

    /// Adds `n` to the right side.
    pub fn add_right(&mut self, n: i128) -> Result<(), LeavesRow>
        ensures terms { self.new.terms ≡ self.old.terms }
        ensures added { OnOk result (self.new.right ≡ self.old.right +ℤ n) }
        ensures kept { OnErr result (self.new ≡ self.old) }
        ensures fits { IsOk result ↔ FitsSigned w128 (self.old.right +ℤ n) }
    {
        self.right = self.right.checked_add(n).ok_or(LeavesRow)?;
        Ok(())
    }

    /// Where the term of an unknown is, or where it would go.
    fn search(&self, unknown: u32) -> Result<usize, usize>
        ensures found { IfOk result (IsAt self.now.terms unknown) }
        ensures absent { IfErr result (IsGapFor self.now.terms unknown) }
    {
        if self.ends_before(unknown) {
            return Err(self.terms.len());
        }
        self.terms.binary_search_by_key(&unknown, |term| term.0)
    }

    /// Whether all terms are of lesser unknowns.
    fn ends_before(&self, unknown: u32) -> bool
        ensures { IsTrue result → IsGapFor self.now.terms unknown (length self.now.terms) }
    {
        let count = self.terms.len();
        count == 0 || self.terms[count - 1].0 < unknown
    }
}

/// Adds `times` to the number of the term at a place, which goes where that leaves 0.
fn add_at(terms: &mut Vec<(u32, i128)>, at: usize, times: i128) -> Result<(), RowFault>
    requires { at < vec_len terms.old }
    ensures added { OnOk result (terms.new.items ≡ with_number terms.old.items at (number_at terms.old.items at +ℤ times)) }
    ensures kept { OnErr result (terms.new.items ≡ terms.old.items) }
    ensures fits { OnOk result (FitsSigned w128 (number_at terms.old.items at +ℤ times)) }
    ensures leaves { OnErr result (result ≡ Err RowFault.LeavesRow) }
    ensures cause { OnErr result (¬ FitsSigned w128 (number_at terms.old.items at +ℤ times)) }
{
    let (unknown, number) = terms[at];
    let Some(sum) = number.checked_add(times) else {
        return Err(RowFault::LeavesRow);
    };
    if sum == 0 {
        terms.remove(at);
    } else {
        terms[at] = (unknown, sum);
    }
    Ok(())
}

/// A new term at a place, unless its number is 0.
fn insert_at(
    terms: &mut Vec<(u32, i128)>,
    at: usize,
    unknown: u32,
    times: i128,
) -> Result<(), RowFault>
    requires { at ≤ vec_len terms.old }
    ensures added { OnOk result (terms.new.items ≡ with_term terms.old.items at unknown times) }
    ensures kept { OnErr result (terms.new.items ≡ terms.old.items) }
    ensures memory { OnErr result (result ≡ Err RowFault.NoMemory) }
{
    if times == 0 {
        return Ok(());
    }
    let placed = if at == terms.len() {
        terms.push((unknown, times))
    } else {
        terms.insert(at, (unknown, times))
    };
    match placed {
        Ok(()) => Ok(()),
        Err(_) => Err(RowFault::NoMemory),
    }
}
