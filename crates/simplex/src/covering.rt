//! For each column, marks at the blocks of rows that may have a number there, so that a pivot looks at no other
//! row. They stand in one vector, column after column.

ghost use Rattle.std.specs.Prelude.{IsTrue, ◌≡◌, ◌<◌, ◌≤◌, ◌+◌, ◌*◌, ◌^◌, [], ◌∷◌, true, length, map, take, slice_index_or, slice_set};
ghost use Rattle.std.specs.Prelude.{replicate, IfOk, OnOk};
ghost use Rattle.std.specs.Option.{SomeIff};
ghost use Rattle.simplex.specs.Among.{Among};
ghost use Rattle.simplex.specs.Standing.{AreTouching};
ghost use Rattle.simplex.specs.Covering.{block_of, blocks_of, Cover, IsCovered, Grow, Clears, HasOne, Follows};

use simplex_rows::FracRow;
use std::alloc::{AllocError, Global};
use std::cmp::Ordering;

/// How many rows share a mark.
const BLOCK: usize = 16;

/// For each of the first columns, marks at the blocks of rows that have a number there. The columns of each row
/// are made in `of_row`. Where there is one block, it is marked in each column.
pub(crate) fn covering(
    alloc: Global,
    rows: &[FracRow],
    columns: usize,
    of_row: &mut Vec<u32>,
) -> Result<Vec<bool>, AllocError>
    ensures { IfOk result (λ marks. Cover columns rows.now marks.items) }
{
    let blocks = rows.len().div_ceil(BLOCK);
    if blocks <= 1 {
        return marks(alloc, true, columns, blocks);
    }
    let mut marks = marks(alloc, false, columns, blocks)?;
    for i in 0..rows.len() {
        rows[i].columns(of_row)?;
        mark_block(&mut marks, blocks, of_row, i / BLOCK);
    }
    Ok(marks)
}

/// A place for each block in each of the first columns, with a mark in all of them or in none.
fn marks(
    alloc: Global,
    is_marked: bool,
    columns: usize,
    blocks: usize,
) -> Result<Vec<bool>, AllocError>
    ensures { IfOk result (λ marks. marks.items ≡ replicate (columns * blocks) is_marked) }
{
    let Some(count) = columns.checked_mul(blocks) else {
        return Err(AllocError);
    };
    vec![in alloc; is_marked; count]
}

/// Marks the blocks of these rows in these columns, where both have a place. A block whose rows stand side by
/// side is marked once.
fn mark_rows(marks: &mut [bool], blocks: usize, columns: &[u32], rows: &[usize])
    ensures { Grow blocks columns.now (map block_of rows.now) marks.old marks.new }
{
    for k in 0..rows.len() {
        if !is_in_last_block(rows, k) {
            mark_block(marks, blocks, columns, rows[k] / BLOCK);
        }
    }
}

/// Whether the row at this place is of the same block as the one before.
fn is_in_last_block(rows: &[usize], k: usize) -> bool
    requires { k < length rows.now }
    ensures { IsTrue result → Among (block_of (slice_index_or rows.now k 0)) (take k (map block_of rows.now)) }
{
    k > 0 && rows[k - 1] / BLOCK == rows[k] / BLOCK
}

/// Marks a block in these columns, where both have a place.
fn mark_block(marks: &mut [bool], blocks: usize, columns: &[u32], block: usize)
    ensures { Grow blocks columns.now (block ∷ []) marks.old marks.new }
{
    for column in columns {
        mark(marks, blocks, *column, block);
    }
}

/// Marks a block in a column, where both have a place.
fn mark(marks: &mut [bool], blocks: usize, column: u32, block: usize)
    ensures { Grow blocks (column ∷ []) (block ∷ []) marks.old marks.new }
{
    match place_of(blocks, column, block) {
        Some(place) => set(marks, place),
        None => {}
    }
}

/// The place of a block in a column, where each column has so many places.
fn place_of(blocks: usize, column: u32, block: usize) -> Option<usize>
    ensures { SomeIff result (column * blocks + block < 2 ^ 64) (column * blocks + block) }
{
    (column as usize).checked_mul(blocks)?.checked_add(block)
}

/// Marks a place, if there is one.
fn set(marks: &mut [bool], place: usize)
    ensures { marks.new ≡ slice_set marks.old place true }
{
    if place < marks.len() {
        marks[place] = true;
    }
}

/// Takes the marks from `first` on and before `end`.
fn clear(marks: &mut [bool], first: usize, end: usize)
    requires order { first ≤ end }
    requires inside { end ≤ length marks.old }
    ensures { Clears first end marks.old marks.new }
{
    for place in first..end {
        marks[place] = false;
    }
}

/// Leaves one mark in a column.
fn keep_one(marks: &mut [bool], blocks: usize, column: u32, block: usize)
    requires column { column * blocks + blocks ≤ length marks.old }
    requires block { block < blocks }
    ensures { HasOne blocks column block marks.old marks.new }
{
    let first = column as usize * blocks;
    clear(marks, first, first + blocks);
    marks[first + block] = true;
}

/// Follows the pivot in this row and column: these rows may have numbers in the lead's columns, and in the
/// entering column the lead alone has one.
pub(crate) fn follow(
    marks: &mut [bool],
    height: usize,
    lead: &[u32],
    rows: &[usize],
    column: u32,
    row: usize,
)
    requires column { column * blocks_of height + blocks_of height ≤ length marks.old }
    requires row { row < height }
    ensures { Follows height lead.now rows.now column row marks.old marks.new }
{
    let blocks = height.div_ceil(BLOCK);
    mark_rows(marks, blocks, lead, rows);
    keep_one(marks, blocks, column, row / BLOCK);
}

/// Makes `all` the rows with a number at column `s` that is not 0.
pub(crate) fn touching(
    rows: &[FracRow],
    marks: &[bool],
    s: u32,
    all: &mut Vec<usize>,
) -> Result<(), AllocError>
    requires column { s * blocks_of (length rows.now) + blocks_of (length rows.now) ≤ length marks.now }
    requires covers { IsCovered s rows.now marks.now }
    ensures { OnOk result (AreTouching s rows.now all.new.items) }
{
    all.clear();
    let blocks = rows.len().div_ceil(BLOCK);
    let first = s as usize * blocks;
    for block in 0..blocks {
        if marks[first + block] {
            push_touching(rows, s, block * BLOCK, all)?;
        }
    }
    Ok(())
}

/// Adds the rows with a number at column `s` that is not 0 among those of the block that begins at `first`.
fn push_touching(
    rows: &[FracRow],
    s: u32,
    first: usize,
    all: &mut Vec<usize>,
) -> Result<(), AllocError>
    requires inside { first ≤ length rows.now }
    requires before { AreTouching s (take first rows.now) all.old.items }
    ensures { OnOk result (AreTouching s (take (first + BLOCK) rows.now) all.new.items) }
{
    for i in first..(first + BLOCK).min(rows.len()) {
        if rows[i].sign_at(s) != Ordering::Equal {
            all.push(i)?;
        }
    }
    Ok(())
}
