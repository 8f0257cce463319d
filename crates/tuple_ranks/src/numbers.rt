// The numbers of all tuples of a context.
ghost use Rattle.std.specs.Prelude.{◌≡◌, ◌≤◌, ◌∷◌, ◌++◌, ℕ, List, map, length, IfOk, OnOk, nat_lt, cond, ◌-◌, ◌+◌, [], take, drop};
ghost use Rattle.tuple_ranks.specs.Columns.{sizes_in};
ghost use Rattle.tuple_ranks.specs.Numbers.{led, numbered, all_numbered, flat, flat_behind, table_rows};

use crate::columns::Column;
use crate::ranks::Ranks;
use smallvec::SmallVec;
use std::alloc::{AllocError, Global};
use std::marker::Model;

/// Tuples in order, each by the numbers of its indices, one behind the other.
#[derive(Drop)]
pub struct Numbers {
    pub count: usize,
    pub width: usize,
    pub numbers: Vec<usize>,
}

impl Model for Numbers {
    ghost use Rattle.std.specs.Prelude.{ℕ, List};
    ghost use Rattle.tuple_ranks.specs.Numbers.{cut};

    ghost Value = { List (List ℕ) };

    ghost view = { λ n. cut n.count n.width n.numbers.items };
}

impl Numbers {
    /// Those of all tuples of a context.
    pub fn new(alloc: Global, ranks: &Ranks<'_>) -> Result<Numbers, AllocError>
        ensures { IfOk result (λ made. made ≡ table_rows ranks.now) }
    {
        let count = ranks.up_to(ranks.degree);
        let width = ranks.columns.len();
        Ok(Numbers {
            count,
            width,
            numbers: listed(
                alloc,
                &ranks.columns,
                ranks.degree,
                count.saturating_mul(width),
            )?,
        })
    }
}

// By degree, and then component by component, with room for so many.
fn listed(
    alloc: Global,
    columns: &[Column<'_>],
    d: u8,
    room: usize,
) -> Result<Vec<usize>, AllocError>
    ensures { IfOk result (λ found. found.items ≡ flat (all_numbered (sizes_in columns.now) (1 + d) 0)) }
{
    let mut found = Vec::with_capacity(alloc, room)?;
    let mut before = SmallVec::new(alloc);
    for g in 0..u16::from(d) + 1 {
        append(&mut found, &mut before, columns, g)?;
    }
    Ok(found)
}

// Appends those of exactly degree `g`, each behind the numbers `before`.
#[cycle(append)]
fn append(
    found: &mut Vec<usize>,
    before: &mut SmallVec<usize, 8>,
    columns: &[Column<'_>],
    g: u16,
) -> Result<(), AllocError>
    ensures all { OnOk result (found.new.items ≡ found.old.items ++ flat_behind before.old.items (numbered (sizes_in columns.now) g)) }
    ensures kept { OnOk result (before.new.items ≡ before.old.items) }
{
    match columns {
        [] => append_row(found, before.as_slice(), g),
        [column, columns @ ..] => append_led(found, before, column.sizes, columns, g),
    }
}

// Appends the row, where nothing of the degree is left.
fn append_row(found: &mut Vec<usize>, before: &[usize], g: u16) -> Result<(), AllocError>
    ensures { OnOk result (found.new.items ≡ found.old.items ++ flat_behind before.now (numbered [] g)) }
{
    if g > 0 {
        return Ok(());
    }
    found.extend_from_slice(before)?;
    Ok(())
}

// Appends those of a variable whose indices have these degrees, and of the variables behind it.
#[cycle(append)]
fn append_led(
    found: &mut Vec<usize>,
    before: &mut SmallVec<usize, 8>,
    sizes: &[u8],
    columns: &[Column<'_>],
    g: u16,
) -> Result<(), AllocError>
    ensures all { OnOk result
        (found.new.items ≡ found.old.items ++ flat_behind before.old.items (led (numbered (sizes_in columns.now)) g 0 sizes.now)) }
    ensures kept { OnOk result (before.new.items ≡ before.old.items) }
{
    for (number, size) in sizes.iter().enumerate() {
        append_behind(found, before, number, u16::from(*size), columns, g)?;
    }
    Ok(())
}

// Appends those behind an index, where its degree is not too high.
#[cycle(append)]
fn append_behind(
    found: &mut Vec<usize>,
    before: &mut SmallVec<usize, 8>,
    number: usize,
    size: u16,
    columns: &[Column<'_>],
    g: u16,
) -> Result<(), AllocError>
    ensures all { OnOk result (found.new.items ≡ found.old.items
        ++ flat_behind before.old.items (cond (nat_lt g size) [] (map (λ ns. number ∷ ns) (numbered (sizes_in columns.now) (g - size))))) }
    ensures kept { OnOk result (before.new.items ≡ before.old.items) }
{
    if g < size {
        return Ok(());
    }
    let place = before.len();
    before.push(number)?;
    append(found, before, columns, g - size)?;
    before.truncate(place);
    Ok(())
}

/// The first of some numbers, so many of them, and the others.
pub fn split(numbers: &[usize], width: usize) -> (&[usize], &[usize])
    ensures first { result.0.now ≡ take width numbers.now }
    ensures rest { result.1.now ≡ drop width numbers.now }
{
    if width < numbers.len() {
        numbers.split_at(width)
    } else {
        (numbers, &[])
    }
}
