//! What a walk has not come to yet.

ghost use Rattle.std.specs.Prelude.{◌≡◌, ◌<◌, ◌≤◌, ◌++◌, [], ◌∷◌, length, IfSome, IfNone};
ghost use Rattle.std.specs.List.{AllWithin, HoldsAt};
ghost use Rattle.simplex_rows.specs.Entries.{Entries, EndsBefore, StartsAt};
ghost use Rattle.simplex_rows.specs.Merging.{Takes};

use frac128::Frac;
use std::marker::Model;

/// What is left of a row in a walk from its first column to its last.
#[derive(Drop)]
pub(crate) struct Rest<'a> {
    entries: &'a [(u32, Frac)],
}

impl<'a> Model for Rest<'a> {
    ghost Value = { Entries };

    ghost view = { λ r. r.entries.now };
}

impl<'a> Rest<'a> {
    /// All of a row.
    pub(crate) fn new(entries: &'a [(u32, Frac)]) -> Rest<'a>
        ensures { result ≡ entries.now }
    {
        Rest { entries }
    }

    /// The fractions and their columns.
    pub(crate) fn entries(&self) -> &'a [(u32, Frac)]
        ensures { result.now ≡ self.now }
    {
        self.entries
    }

    /// Takes the first fraction and its column, if there is one.
    pub(crate) fn take_first(&mut self) -> Option<(u32, Frac)>
        ensures some { IfSome result (λ first. self.old ≡ first ∷ self.new) }
        ensures none { IfNone result (self.old ≡ []) }
    {
        let (first, later) = self.entries.split_first()?;
        self.entries = later;
        Some(*first)
    }

    /// Takes the fractions whose columns come before one.
    pub(crate) fn take_before(&mut self, column: u32) -> Rest<'a>
        ensures all { self.old ≡ result ++ self.new }
        ensures before { EndsBefore column result }
        ensures from { StartsAt column self.new }
    {
        let count = count_before(self.entries, column);
        let (before, later) = self.entries.split_at(count);
        self.entries = later;
        Rest { entries: before }
    }

    /// Takes the first fraction where it is in the column, or 0.
    pub(crate) fn take(&mut self, column: u32) -> Frac
        ensures { Takes column self.old result self.new }
    {
        let Some(first) = self.entries.first() else {
            return Frac::zero();
        };
        if first.0 != column {
            return Frac::zero();
        }
        match self.take_first() {
            Some((_, number)) => number,
            None => Frac::zero(),
        }
    }
}

/// How many columns come before one, of columns that ascend.
fn count_before(entries: &[(u32, Frac)], column: u32) -> usize
    ensures bound { result ≤ length entries.now }
    ensures before { AllWithin (λ entry. entry.0 < column) entries.now 0 result }
    ensures next { result < length entries.now → HoldsAt (λ entry. column ≤ entry.0) entries.now result }
{
    entries
        .iter()
        .position(|entry| entry.0 >= column)
        .unwrap_or(entries.len())
}
