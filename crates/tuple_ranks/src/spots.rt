// Where the tuples of one context stand among those of another.
ghost use Rattle.std.specs.Prelude.{◌≡◌, ◌⊎◌, ◌+◌, ◌∷◌, [], ◌++◌, ◌-◌, true, false, length, map, take, IfOk, OnOk, IsErrOf};
ghost use Rattle.raml_syntax.specs.Read.{ty_of};
ghost use Rattle.base_poly.specs.Read.{context_of};
ghost use Rattle.index_shift.specs.Contexts.{marked_items, other_items};
ghost use Rattle.index_shift.specs.Tables.{listed};
ghost use Rattle.tuple_ranks.specs.Columns.{sizes, sizes_in, table_by, place, up_to};
ghost use Rattle.tuple_ranks.specs.Numbers.{all_rows, table_rows};
ghost use Rattle.tuple_ranks.specs.Read.{items_of, lists_of};
ghost use Rattle.tuple_ranks.specs.Slots.{picked, half_items, half_slots, behind_at};
ghost use Rattle.tuple_ranks.specs.Spots.{IsSmall, IsLarge, AreSmall, AreLarge, AreCutLarge, permuted_spots, half_spots, joined_spots};
ghost use Rattle.tuple_ranks.specs.Spots.{all_counts};

use crate::columns::{Column, sizes_of};
use crate::numbers::{Numbers, split};
use crate::ranks::Ranks;
use crate::slots::{Slot, half_sizes, half_slots, permuted_slots, plain_slots};
use base_poly::IndexFault;
use raml_syntax::Ty;
use smallvec::SmallVec;
use std::alloc::{AllocError, Global};
use std::marker::Model;

/// Where each tuple of a context stands among those of another: its indices in another order, each
/// for a variable of the other context. Where it has no position the number of all stands.
///
/// `TooMany` where one of the two has more than 2000 indices of degree at most `d`.
pub fn permuted_spots(
    alloc: Global,
    order: &[usize],
    from: &[Ty],
    to: &[Ty],
    d: u8,
) -> Result<Vec<usize>, IndexFault>
    ensures all { IfOk result (λ found. found.items ≡ permuted_spots order.now (context_of from.now) (context_of to.now) d) }
    ensures few { OnOk result (IsSmall (context_of from.now) d × IsSmall (context_of to.now) d) }
    ensures many { IsErrOf result IndexFault.TooMany → IsLarge (context_of from.now) d ⊎ IsLarge (context_of to.now) d }
{
    let firsts = all_sizes(alloc, from, d)?;
    let tuples = tuples_of(alloc, &firsts, d)?;
    let seconds = all_sizes(alloc, to, d)?;
    let ranks = ranks_of(alloc, &seconds, d)?;
    let slots = permuted_slots(alloc, order, from, to, d)?;
    Ok(places(alloc, &tuples.numbers, &slots, &ranks)?)
}

/// Of each tuple of a context, where its indices without a mark stand, and where the marked ones.
///
/// `TooMany` where the context has more than 2000 indices of degree at most `d`.
pub fn half_spots(
    alloc: Global,
    marks: &[bool],
    types: &[Ty],
    d: u8,
) -> Result<Vec<(usize, usize)>, IndexFault>
    ensures all { IfOk result (λ found. found.items ≡ half_spots marks.now (context_of types.now) d) }
    ensures few { OnOk result (IsSmall (context_of types.now) d) }
    ensures many { IsErrOf result IndexFault.TooMany → IsLarge (context_of types.now) d }
{
    let sizes = all_sizes(alloc, types, d)?;
    let tuples = tuples_of(alloc, &sizes, d)?;
    let others = Half::new(alloc, marks, &sizes, false, d)?;
    let marked = Half::new(alloc, marks, &sizes, true, d)?;
    Ok(both_places(alloc, &tuples.numbers, &others, &marked)?)
}

/// What is made of a context of which a form uses up the marked variables, and of a type that stands
/// behind the others instead: where the halves of its tuples stand, where the type's tuples stand
/// behind those of the others, and how many tuples there are up to each degree from 0 on: of the
/// context, of the marked variables, of the others, of the type, and of the others before the type.
#[derive(Drop)]
pub struct Cut {
    pub halves: Vec<(usize, usize)>,
    pub joined: Vec<Joined>,
    pub whole: Vec<usize>,
    pub marked: Vec<usize>,
    pub others: Vec<usize>,
    pub bound: Vec<usize>,
    pub rest: Vec<usize>,
}

/// The same of these types.
///
/// `TooMany` where the context, or the others before the type, have more than 2000 indices of degree
/// at most `d`.
pub fn cut_spots(
    alloc: Global,
    marks: &[bool],
    types: &[Ty],
    bound: &Ty,
    d: u8,
) -> Result<Cut, IndexFault>
    ensures halves { IfOk result (λ cut. cut.halves.items ≡ half_spots marks.now (context_of types.now) d) }
    ensures joined { IfOk result
        (λ cut. cut.joined.items ≡ joined_spots (other_items marks.now (context_of types.now)) (ty_of bound.now ∷ []) d) }
    ensures whole { IfOk result (λ cut. cut.whole.items ≡ all_counts (context_of types.now) d) }
    ensures marked { IfOk result (λ cut. cut.marked.items ≡ all_counts (marked_items marks.now (context_of types.now)) d) }
    ensures others { IfOk result (λ cut. cut.others.items ≡ all_counts (other_items marks.now (context_of types.now)) d) }
    ensures bound { IfOk result (λ cut. cut.bound.items ≡ all_counts (ty_of bound.now ∷ []) d) }
    ensures rest { IfOk result
        (λ cut. cut.rest.items ≡ all_counts (other_items marks.now (context_of types.now) ++ ty_of bound.now ∷ []) d) }
    ensures few { OnOk result
        (IsSmall (context_of types.now) d × IsSmall (other_items marks.now (context_of types.now) ++ ty_of bound.now ∷ []) d) }
    ensures many { IsErrOf result IndexFault.TooMany → IsLarge (context_of types.now) d
        ⊎ IsLarge (other_items marks.now (context_of types.now) ++ ty_of bound.now ∷ []) d }
{
    if d == 0 {
        return Ok(least_cut(alloc)?);
    }
    let sizes = all_sizes(alloc, types, d)?;
    let last = sizes_of(alloc, bound, d)?;
    let contexts = Contexts::new(alloc, marks, &sizes, &last, d)?;
    Ok(contexts.cut(alloc)?)
}

// At degree 0 each context has one tuple.
fn least_cut(alloc: Global) -> Result<Cut, AllocError>
    ensures halves { IfOk result (λ cut. cut.halves.items ≡ (0, 0) ∷ []) }
    ensures joined { IfOk result (λ cut. cut.joined.items ≡ (0, 0 ∷ []) ∷ []) }
    ensures whole { IfOk result (λ cut. cut.whole.items ≡ 1 ∷ []) }
    ensures marked { IfOk result (λ cut. cut.marked.items ≡ 1 ∷ []) }
    ensures others { IfOk result (λ cut. cut.others.items ≡ 1 ∷ []) }
    ensures bound { IfOk result (λ cut. cut.bound.items ≡ 1 ∷ []) }
    ensures rest { IfOk result (λ cut. cut.rest.items ≡ 1 ∷ []) }
{
    let first = Joined {
        degree: 0,
        spots: Vec::from_array(alloc, [0])?,
    };
    Ok(Cut {
        halves: Vec::from_array(alloc, [(0, 0)])?,
        joined: Vec::from_array(alloc, [first])?,
        whole: Vec::from_array(alloc, [1])?,
        marked: Vec::from_array(alloc, [1])?,
        others: Vec::from_array(alloc, [1])?,
        bound: Vec::from_array(alloc, [1])?,
        rest: Vec::from_array(alloc, [1])?,
    })
}

/// A tuple's degree, and where the tuples of another context stand behind it.
#[derive(Drop)]
pub struct Joined {
    pub degree: u8,
    pub spots: Vec<usize>,
}

impl Model for Joined {
    ghost use Rattle.std.specs.Prelude.{ℕ, List};

    ghost Value = { ℕ × List ℕ };

    ghost view = { λ j. (j.degree, j.spots.items) };
}

/// Of each tuple of a context, where the tuples of another stand behind it whose degree is not too
/// high.
///
/// `TooMany` where both together have more than 2000 indices of degree at most `d`.
pub fn joined_spots(
    alloc: Global,
    first: &[Ty],
    second: &[Ty],
    d: u8,
) -> Result<Vec<Joined>, IndexFault>
    ensures all { IfOk result (λ found. found.items ≡ joined_spots (context_of first.now) (context_of second.now) d) }
    ensures few { OnOk result (IsSmall (context_of first.now ++ context_of second.now) d) }
    ensures many { IsErrOf result IndexFault.TooMany → IsLarge (context_of first.now ++ context_of second.now) d }
{
    let firsts = all_sizes(alloc, first, d)?;
    let seconds = all_sizes(alloc, second, d)?;
    let whole = ranks_of_both(alloc, &firsts, &seconds, d)?;
    let first = tuples_of(alloc, &firsts, d)?;
    let second = tuples_of(alloc, &seconds, d)?;
    Ok(joins(
        alloc,
        &first.ranks,
        &first.numbers,
        &second.ranks,
        &second.numbers,
        &whole,
    )?)
}

// The degrees of the indices of each of the types, component by component.
fn all_sizes(alloc: Global, types: &[Ty], d: u8) -> Result<Vec<Vec<u8>>, IndexFault>
    ensures all { IfOk result (λ found. map items_of found.items ≡ sizes (context_of types.now) d) }
    ensures many { IsErrOf result IndexFault.TooMany → IsLarge (context_of types.now) d }
{
    let mut found = Vec::with_capacity(alloc, types.len())?;
    for ty in types {
        found.push(sizes_of(alloc, ty, d)?)?;
    }
    Ok(found)
}

// They are lent.
fn lent<'s>(alloc: Global, sizes: &'s [Vec<u8>]) -> Result<SmallVec<&'s [u8], 8>, AllocError>
    ensures { IfOk result (λ found. lists_of found.items ≡ map items_of sizes.now) }
{
    let mut found = SmallVec::with_capacity(alloc, sizes.len())?;
    for row in sizes {
        found.push(&row[..])?;
    }
    Ok(found)
}

// The positions of a context's tuples.
fn ranks_of<'s>(alloc: Global, sizes: &'s [Vec<u8>], d: u8) -> Result<Ranks<'s>, IndexFault>
    ensures is { IfOk result (λ ranks. ranks ≡ table_by (map items_of sizes.now) d) }
    ensures few { OnOk result (AreSmall (map items_of sizes.now) d) }
    ensures many { IsErrOf result IndexFault.TooMany → AreLarge (map items_of sizes.now) d }
{
    let sizes = lent(alloc, sizes)?;
    Ranks::new(alloc, sizes.as_slice(), d)
}

// Those of both contexts together.
fn ranks_of_both<'s>(
    alloc: Global,
    first: &'s [Vec<u8>],
    second: &'s [Vec<u8>],
    d: u8,
) -> Result<Ranks<'s>, IndexFault>
    ensures is { IfOk result (λ ranks. ranks ≡ table_by (map items_of first.now ++ map items_of second.now) d) }
    ensures few { OnOk result (AreSmall (map items_of first.now ++ map items_of second.now) d) }
    ensures many { IsErrOf result IndexFault.TooMany → AreLarge (map items_of first.now ++ map items_of second.now) d }
{
    let mut sizes = lent(alloc, first)?;
    let others = lent(alloc, second)?;
    sizes.extend_from_slice(others.as_slice())?;
    Ranks::new(alloc, sizes.as_slice(), d)
}

// A context, to find the positions of its tuples, and the numbers of all of them.
#[derive(Drop)]
struct Tuples<'s> {
    ranks: Ranks<'s>,
    numbers: Numbers,
}

impl<'s> Tuples<'s> {
    // Those of types whose indices have these degrees.
    fn new(alloc: Global, sizes: &[&'s [u8]], d: u8) -> Result<Tuples<'s>, IndexFault>
        ensures ranks { IfOk result (λ tuples. tuples.ranks ≡ table_by (lists_of sizes.now) d) }
        ensures numbers { IfOk result (λ tuples. tuples.numbers ≡ all_rows (lists_of sizes.now) d) }
        ensures few { OnOk result (AreSmall (lists_of sizes.now) d) }
        ensures many { IsErrOf result IndexFault.TooMany → AreLarge (lists_of sizes.now) d }
    {
        let ranks = Ranks::new(alloc, sizes, d)?;
        let numbers = Numbers::new(alloc, &ranks)?;
        Ok(Tuples { ranks, numbers })
    }
}

// The same of lists of degrees that are lent.
fn tuples_of<'s>(alloc: Global, sizes: &'s [Vec<u8>], d: u8) -> Result<Tuples<'s>, IndexFault>
    ensures ranks { IfOk result (λ tuples. tuples.ranks ≡ table_by (map items_of sizes.now) d) }
    ensures numbers { IfOk result (λ tuples. tuples.numbers ≡ all_rows (map items_of sizes.now) d) }
    ensures few { OnOk result (AreSmall (map items_of sizes.now) d) }
    ensures many { IsErrOf result IndexFault.TooMany → AreLarge (map items_of sizes.now) d }
{
    let sizes = lent(alloc, sizes)?;
    Tuples::new(alloc, sizes.as_slice(), d)
}

// Some variables of a context, to find the positions of their tuples, and which these are.
#[derive(Drop)]
struct Half<'s> {
    ranks: Ranks<'s>,
    slots: Vec<Slot>,
}

impl<'s> Half<'s> {
    // Those that have the wanted mark.
    fn new(
        alloc: Global,
        marks: &[bool],
        sizes: &'s [Vec<u8>],
        wanted: bool,
        d: u8,
    ) -> Result<Half<'s>, IndexFault>
        ensures ranks { IfOk result (λ half. half.ranks ≡ table_by (half_items wanted marks.now 0 (map items_of sizes.now)) d) }
        ensures slots { IfOk result (λ half. half.slots.items ≡ half_slots wanted marks.now 0 (length sizes.now)) }
        ensures few { OnOk result (AreSmall (half_items wanted marks.now 0 (map items_of sizes.now)) d) }
        ensures many { IsErrOf result IndexFault.TooMany → AreLarge (half_items wanted marks.now 0 (map items_of sizes.now)) d }
    {
        let kept = half_sizes(alloc, marks, sizes, wanted)?;
        let ranks = Ranks::new(alloc, kept.as_slice(), d)?;
        let slots = half_slots(alloc, marks, sizes.len(), wanted)?;
        Ok(Half { ranks, slots })
    }
}

// A context, its marked variables and the others, the type that stands behind these, and both
// together.
#[derive(Drop)]
struct Contexts<'s> {
    whole: Tuples<'s>,
    marked: Half<'s>,
    others: Half<'s>,
    bound: Tuples<'s>,
    rest: Ranks<'s>,
}

impl<'s> Contexts<'s> {
    // Those of types whose indices have these degrees.
    fn new(
        alloc: Global,
        marks: &[bool],
        sizes: &'s [Vec<u8>],
        last: &'s [u8],
        d: u8,
    ) -> Result<Contexts<'s>, IndexFault>
        ensures whole { IfOk result (λ made. made.whole.ranks ≡ table_by (map items_of sizes.now) d) }
        ensures numbers { IfOk result (λ made. made.whole.numbers ≡ all_rows (map items_of sizes.now) d) }
        ensures marked { IfOk result (λ made. made.marked.ranks ≡ table_by (half_items true marks.now 0 (map items_of sizes.now)) d) }
        ensures marked_slots { IfOk result (λ made. made.marked.slots.items ≡ half_slots true marks.now 0 (length sizes.now)) }
        ensures others { IfOk result (λ made. made.others.ranks ≡ table_by (half_items false marks.now 0 (map items_of sizes.now)) d) }
        ensures other_slots { IfOk result (λ made. made.others.slots.items ≡ half_slots false marks.now 0 (length sizes.now)) }
        ensures bound { IfOk result (λ made. made.bound.ranks ≡ table_by (last.now ∷ []) d) }
        ensures bound_numbers { IfOk result (λ made. made.bound.numbers ≡ all_rows (last.now ∷ []) d) }
        ensures rest { IfOk result
            (λ made. made.rest ≡ table_by (half_items false marks.now 0 (map items_of sizes.now) ++ last.now ∷ []) d) }
        ensures small { OnOk result (AreSmall (map items_of sizes.now) d) }
        ensures few { OnOk result
            (AreSmall (half_items true marks.now 0 (map items_of sizes.now)) d
            × AreSmall (half_items false marks.now 0 (map items_of sizes.now)) d
            × AreSmall (half_items false marks.now 0 (map items_of sizes.now) ++ last.now ∷ []) d) }
        ensures many { IsErrOf result IndexFault.TooMany → AreCutLarge marks.now (map items_of sizes.now) last.now d }
    {
        let whole = tuples_of(alloc, sizes, d)?;
        let marked = Half::new(alloc, marks, sizes, true, d)?;
        let others = Half::new(alloc, marks, sizes, false, d)?;
        let bound = Tuples::new(alloc, &[last], d)?;
        let rest = rest_of(alloc, &others.ranks, last, d)?;
        Ok(Contexts {
            whole,
            marked,
            others,
            bound,
            rest,
        })
    }

    // What is made of them.
    fn cut(&self, alloc: Global) -> Result<Cut, AllocError>
        ensures halves { IfOk result
            (λ cut. cut.halves.items ≡ map
            (λ ns. (
              place self.now.others.ranks (picked self.now.others.slots.items ns),
              place self.now.marked.ranks
                  (picked self.now.marked.slots.items ns),
            )) self.now.whole.numbers) }
        ensures joined { IfOk result
            (λ cut. cut.joined.items ≡ map
            (behind_at self.now.others.ranks self.now.bound.ranks self.now.rest self.now.bound.numbers)
            (table_rows self.now.others.ranks)) }
        ensures whole { IfOk result (λ cut. cut.whole.items ≡ listed (up_to self.now.whole.ranks) 0 (1 + self.now.whole.ranks.degree)) }
        ensures marked { IfOk result (λ cut. cut.marked.items ≡ listed (up_to self.now.marked.ranks) 0 (1 + self.now.marked.ranks.degree)) }
        ensures others { IfOk result (λ cut. cut.others.items ≡ listed (up_to self.now.others.ranks) 0 (1 + self.now.others.ranks.degree)) }
        ensures bound { IfOk result (λ cut. cut.bound.items ≡ listed (up_to self.now.bound.ranks) 0 (1 + self.now.bound.ranks.degree)) }
        ensures rest { IfOk result (λ cut. cut.rest.items ≡ listed (up_to self.now.rest) 0 (1 + self.now.rest.degree)) }
    {
        let outer = Numbers::new(alloc, &self.others.ranks)?;
        Ok(Cut {
            halves: both_places(alloc, &self.whole.numbers, &self.others, &self.marked)?,
            joined: joins(
                alloc,
                &self.others.ranks,
                &outer,
                &self.bound.ranks,
                &self.bound.numbers,
                &self.rest,
            )?,
            whole: self.whole.ranks.counts(alloc)?,
            marked: self.marked.ranks.counts(alloc)?,
            others: self.others.ranks.counts(alloc)?,
            bound: self.bound.ranks.counts(alloc)?,
            rest: self.rest.counts(alloc)?,
        })
    }
}

// The context of these variables and a last one.
fn rest_of<'s>(
    alloc: Global,
    others: &Ranks<'s>,
    last: &'s [u8],
    d: u8,
) -> Result<Ranks<'s>, IndexFault>
    ensures is { IfOk result (λ ranks. ranks ≡ table_by (sizes_in others.now.columns ++ last.now ∷ []) d) }
    ensures few { OnOk result (AreSmall (sizes_in others.now.columns ++ last.now ∷ []) d) }
    ensures many { IsErrOf result IndexFault.TooMany → AreLarge (sizes_in others.now.columns ++ last.now ∷ []) d }
{
    let sizes = with_last(alloc, &others.columns, last)?;
    Ranks::new(alloc, sizes.as_slice(), d)
}

// Their degrees.
fn with_last<'s>(
    alloc: Global,
    columns: &[Column<'s>],
    last: &'s [u8],
) -> Result<SmallVec<&'s [u8], 8>, AllocError>
    ensures { IfOk result (λ found. lists_of found.items ≡ sizes_in columns.now ++ last.now ∷ []) }
{
    let mut found = SmallVec::new(alloc);
    for column in columns {
        found.push(column.sizes)?;
    }
    found.push(last)?;
    Ok(found)
}

// The positions of the tuples that the slots pick.
fn places(
    alloc: Global,
    numbers: &Numbers,
    slots: &[Slot],
    ranks: &Ranks<'_>,
) -> Result<Vec<usize>, AllocError>
    ensures { IfOk result (λ found. found.items ≡ map (λ ns. place ranks.now (picked slots.now ns)) numbers.now) }
{
    let mut found = Vec::with_capacity(alloc, numbers.count)?;
    let mut rest = &numbers.numbers[..];
    for _ in 0..numbers.count {
        let (row, behind) = split(rest, numbers.width);
        found.push(ranks.place(slots, row))?;
        rest = behind;
    }
    Ok(found)
}

// The positions of both halves of the tuples.
fn both_places(
    alloc: Global,
    numbers: &Numbers,
    others: &Half<'_>,
    marked: &Half<'_>,
) -> Result<Vec<(usize, usize)>, AllocError>
    ensures { IfOk result (λ found. found.items ≡ map
        (λ ns. (
          place others.now.ranks (picked others.now.slots.items ns),
          place marked.now.ranks
              (picked marked.now.slots.items ns),
        )) numbers.now) }
{
    let mut found = Vec::with_capacity(alloc, numbers.count)?;
    let mut rest = &numbers.numbers[..];
    for _ in 0..numbers.count {
        let (row, behind) = split(rest, numbers.width);
        let other = others.ranks.place(&others.slots, row);
        found.push((other, marked.ranks.place(&marked.slots, row)))?;
        rest = behind;
    }
    Ok(found)
}

// Of each tuple of the first context what stands behind it, from the two contexts with the numbers of
// their tuples, and both together.
fn joins(
    alloc: Global,
    first: &Ranks<'_>,
    rows: &Numbers,
    second: &Ranks<'_>,
    last: &Numbers,
    whole: &Ranks<'_>,
) -> Result<Vec<Joined>, AllocError>
    ensures { IfOk result (λ found. found.items ≡ map (behind_at first.now second.now whole.now last.now) rows.now) }
{
    let own = plain_slots(alloc, first.columns.len())?;
    let slots = plain_slots(alloc, whole.columns.len())?;
    let mut found = Vec::with_capacity(alloc, rows.count)?;
    let mut numbers = Vec::with_capacity(alloc, whole.columns.len())?;
    let mut rest = &rows.numbers[..];
    for _ in 0..rows.count {
        let (row, behind) = split(rest, rows.width);
        let degree = first.degree_at(&own, row);
        let spots = spots_behind(
            alloc,
            &mut numbers,
            row,
            degree,
            second,
            last,
            whole,
            &slots,
        )?;
        found.push(Joined { degree, spots })?;
        rest = behind;
    }
    Ok(found)
}

// The positions of the tuples of the second context behind these numbers, of which so much of the
// degree is taken.
fn spots_behind(
    alloc: Global,
    numbers: &mut Vec<usize>,
    row: &[usize],
    degree: u8,
    second: &Ranks<'_>,
    last: &Numbers,
    whole: &Ranks<'_>,
    slots: &[Slot],
) -> Result<Vec<usize>, AllocError>
    ensures { IfOk result (λ found. found.items ≡ map
        (λ ns. place whole.now (picked slots.now (row.now ++ ns))) (take (up_to second.now (second.now.degree - degree)) last.now)) }
{
    let left = second.degree.saturating_sub(degree);
    let count = second.up_to(left).min(last.count);
    let mut found = Vec::with_capacity(alloc, count)?;
    let mut rest = &last.numbers[..];
    for _ in 0..count {
        let (behind, later) = split(rest, last.width);
        join(numbers, row, behind)?;
        found.push(whole.place(slots, numbers))?;
        rest = later;
    }
    Ok(found)
}

// Both rows, one behind the other, in place of what was there.
fn join(numbers: &mut Vec<usize>, row: &[usize], behind: &[usize]) -> Result<(), AllocError>
    ensures { OnOk result (numbers.new.items ≡ row.now ++ behind.now) }
{
    numbers.clear();
    numbers.extend_from_slice(row)?;
    numbers.extend_from_slice(behind)?;
    Ok(())
}
