// The heap of cells.
ghost use Rattle.std.specs.Prelude.{◌≡◌, ◌<◌, ◌≤◌, ◌+◌, ◌^◌, [], ◌∷◌, ◌++◌, length, take, slice_get, Some, OnOk};
ghost use Rattle.value_text.specs.Heap.{NamesBelow, NameEarlier};

use crate::word::Cell;
use std::alloc::{AllocError, Global};
use std::marker::Model;

/// Cells by their numbers, from 0. A cell names only cells before it. None is ever changed, and only the
/// last ones are taken away, where a text whose cells were added is refused.
#[derive(Drop)]
pub struct DataHeap {
    cells: Vec<Cell>,
    spare: u32,
}

impl Model for DataHeap {
    ghost use Rattle.std.specs.Prelude.{◌≤◌, ◌<◌, ◌+◌, ◌^◌, vec_len, vec_capacity};
    ghost use Rattle.value_text.specs.Heap.{Heap, NameEarlier};

    ghost Value = { Heap };

    ghost view = { λ h. record { cells = h.cells.items; spare = h.spare } };

    ghost invariant = { λ h. NameEarlier h.cells.items
        × (vec_len h.cells + h.spare ≤ vec_capacity h.cells) × (vec_len h.cells + h.spare < 2 ^ 32) };
}

impl DataHeap {
    /// No cells. Takes no memory.
    pub fn new(alloc: Global) -> DataHeap
        ensures cells { result.cells ≡ [] }
        ensures spare { result.spare ≡ 0 }
    {
        DataHeap {
            cells: Vec::new(alloc),
            spare: 0,
        }
    }

    /// How many cells there are.
    pub fn len(&self) -> u32
        ensures length { result ≡ length self.now.cells }
        ensures earlier { NameEarlier self.now.cells }
    {
        self.cells.len() as u32
    }

    /// Makes room for so many more cells.
    pub fn reserve(&mut self, cells: u32) -> Result<(), AllocError>
        requires { length self.old.cells + cells < 2 ^ 32 }
        ensures spare { OnOk result (cells ≤ self.new.spare) }
        ensures more { self.old.spare ≤ self.new.spare }
        ensures cells { self.new.cells ≡ self.old.cells }
        ensures earlier { NameEarlier self.new.cells }
    {
        if self.spare < cells {
            self.cells.reserve(cells as usize)?;
            self.spare = cells;
        }
        Ok(())
    }

    /// Adds a cell, for which there has to be room, and answers its number. Takes no memory.
    pub fn add(&mut self, cell: Cell) -> u32
        requires room { 0 < self.old.spare }
        requires earlier { NamesBelow (length self.old.cells) cell }
        ensures number { result ≡ length self.old.cells }
        ensures cells { self.new.cells ≡ self.old.cells ++ cell ∷ [] }
        ensures spare { self.new.spare + 1 ≡ self.old.spare }
    {
        let number = self.cells.len() as u32;
        self.cells.push(cell).unwrap();
        self.spare -= 1;
        number
    }

    /// Undoes the adding of the cells from this number on. Takes no memory.
    pub(crate) fn forget(&mut self, from: u32)
        requires { from ≤ length self.old.cells }
        ensures cells { self.new.cells ≡ take from self.old.cells }
        ensures spare { self.new.spare ≡ self.old.spare }
    {
        self.cells.truncate(from as usize);
    }

    /// The cell of a number.
    pub fn get(&self, number: u32) -> Cell
        requires { number < length self.now.cells }
        ensures cell { slice_get self.now.cells number ≡ Some result }
        ensures earlier { NameEarlier self.now.cells }
    {
        self.cells[number as usize]
    }
}
