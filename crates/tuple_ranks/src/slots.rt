// The indices of one tuple that make another.
ghost use Rattle.std.specs.Prelude.{◌≡◌, ◌⊎◌, [], ◌∷◌, ◌++◌, length, slice_get, slice_index_or, map, cond, None, option_map, IfOk, OnOk};
ghost use Rattle.std.specs.Prelude.{IsErrOf};
ghost use Rattle.std.specs.List.{position_or_len, range_with_len};
ghost use Rattle.raml_syntax.specs.Read.{ty_of};
ghost use Rattle.base_poly.specs.Plain.{alike};
ghost use Rattle.base_poly.specs.Indices.{Ascends, each_in_turn, tuples_up_to};
ghost use Rattle.base_poly.specs.Read.{context_of};
ghost use Rattle.index_shift.specs.Contexts.{insertion, permutation};
ghost use Rattle.tuple_ranks.specs.Slots.{seen_by, chosen, half_items, half_slots, renumbering, table_between, slots_between, plain_slots};
ghost use Rattle.tuple_ranks.specs.Read.{items_of, lists_of};
ghost use Rattle.tuple_ranks.specs.Spots.{IsLarge};

use crate::columns::{MOST, sizes_of};
use base_poly::{IndexFault, Tuple, tuples_up_to};
use indexmap::IndexSet;
use raml_syntax::Ty;
use smallvec::SmallVec;
use std::alloc::{AllocError, Global};
use std::marker::Model;
use std::slice;

/// Which index of another tuple stands here, and a table of the numbers that its type's indices have
/// here, where these are others.
#[derive(Drop)]
pub struct Slot {
    pub from: usize,
    pub table: Option<Vec<usize>>,
}

impl Model for Slot {
    ghost use Rattle.std.specs.Prelude.{option_map};
    ghost use Rattle.tuple_ranks.specs.Slots.{Slot};
    ghost use Rattle.tuple_ranks.specs.Read.{items_of};

    ghost Value = { Slot };

    ghost view = { λ s. (s.from, option_map items_of s.table) };
}

impl Slot {
    /// The number of the index in the slot, where the other tuple has these.
    pub fn number(&self, numbers: &[usize]) -> usize
        ensures { result ≡ seen_by numbers.now self.now }
    {
        let number = at(numbers, self.from);
        match &self.table {
            Some(table) => at(table, number),
            None => number,
        }
    }
}

// The number at the place, 0 past the end.
fn at(numbers: &[usize], place: usize) -> usize
    ensures { result ≡ slice_index_or numbers.now place 0 }
{
    match numbers.get(place) {
        Some(number) => *number,
        None => 0,
    }
}

/// All indices of a tuple as they are.
pub fn plain_slots(alloc: Global, width: usize) -> Result<Vec<Slot>, AllocError>
    ensures { IfOk result (λ slots. slots.items ≡ plain_slots 0 width) }
{
    let mut slots = Vec::with_capacity(alloc, width)?;
    for from in 0..width {
        slots.push(Slot { from, table: None })?;
    }
    Ok(slots)
}

// Whether there is a mark at the place, and it is the wanted one.
fn chosen(wanted: bool, marks: &[bool], at: usize) -> bool
    ensures { result ≡ chosen wanted (slice_get marks.now at) }
{
    match marks.get(at) {
        Some(mark) => { if wanted { *mark } else { !*mark } }
        None => false,
    }
}

// Appends the index as it is, where it is kept.
fn keep(slots: &mut Vec<Slot>, from: usize, kept: bool) -> Result<(), AllocError>
    ensures { OnOk result (slots.new.items ≡ slots.old.items ++ cond kept ((from, None) ∷ []) []) }
{
    if kept {
        slots.push(Slot { from, table: None })?;
    }
    Ok(())
}

/// The indices of so many whose variables have the wanted mark.
pub fn half_slots(
    alloc: Global,
    marks: &[bool],
    width: usize,
    wanted: bool,
) -> Result<Vec<Slot>, AllocError>
    ensures { IfOk result (λ slots. slots.items ≡ half_slots wanted marks.now 0 width) }
{
    let mut slots = Vec::new(alloc);
    for from in 0..width {
        keep(&mut slots, from, chosen(wanted, marks, from))?;
    }
    Ok(slots)
}

/// The degrees of the indices of the types whose variables have it.
pub fn half_sizes<'s>(
    alloc: Global,
    marks: &[bool],
    sizes: &'s [Vec<u8>],
    wanted: bool,
) -> Result<SmallVec<&'s [u8], 8>, AllocError>
    ensures { IfOk result (λ found. lists_of found.items ≡ half_items wanted marks.now 0 (map items_of sizes.now)) }
{
    let mut found = SmallVec::with_capacity(alloc, sizes.len())?;
    for (at, row) in sizes.iter().enumerate() {
        if chosen(wanted, marks, at) {
            found.push(&row[..])?;
        }
    }
    Ok(found)
}

/// The indices of a tuple of the one context in another order, each for a variable of the other
/// context.
///
/// `TooMany` where one of the two has more than 2000 indices of degree at most `d`.
pub fn permuted_slots(
    alloc: Global,
    order: &[usize],
    from: &[Ty],
    to: &[Ty],
    d: u8,
) -> Result<Vec<Slot>, IndexFault>
    ensures all { IfOk result (λ slots. slots.items
        ≡ slots_between (context_of from.now) (context_of to.now) d 0 (permutation order.now (range_with_len 0 (length from.now)))) }
    ensures many { IsErrOf result IndexFault.TooMany → IsLarge (context_of from.now) d ⊎ IsLarge (context_of to.now) d }
{
    let places = up_to(alloc, from.len())?;
    let picks = permuted(alloc, order, &places)?;
    slots_between(alloc, &picks, from, to, d)
}

// The numbers below one.
fn up_to(alloc: Global, n: usize) -> Result<Vec<usize>, AllocError>
    ensures { IfOk result (λ found. found.items ≡ range_with_len 0 n) }
{
    let mut found = Vec::new(alloc);
    for k in 0..n {
        found.push(k)?;
    }
    Ok(found)
}

// The items in another order.
#[cycle(permuted)]
fn permuted(alloc: Global, order: &[usize], items: &[usize]) -> Result<Vec<usize>, AllocError>
    ensures { IfOk result (λ found. found.items ≡ permutation order.now items.now) }
{
    match order {
        [] => Ok(Vec::new(alloc)),
        [place, order @ ..] => permuted_behind(alloc, *place, order, items),
    }
}

#[cycle(permuted)]
fn permuted_behind(
    alloc: Global,
    place: usize,
    order: &[usize],
    items: &[usize],
) -> Result<Vec<usize>, AllocError>
    ensures { IfOk result (λ found. found.items ≡ permutation (place ∷ order.now) items.now) }
{
    match items {
        [] => Ok(Vec::new(alloc)),
        [first, rest @ ..] => {
            let found = permuted(alloc, order, rest)?;
            inserted(found, place, *first)
        }
    }
}

// The item at its place among others, or at their end.
fn inserted(others: Vec<usize>, place: usize, item: usize) -> Result<Vec<usize>, AllocError>
    ensures { IfOk result (λ found. found.items ≡ insertion place item others.items) }
{
    let mut found = others;
    let at = place.min(found.len());
    found.insert(at, item)?;
    Ok(found)
}

// The slots of these places.
fn slots_between(
    alloc: Global,
    picks: &[usize],
    from: &[Ty],
    to: &[Ty],
    d: u8,
) -> Result<Vec<Slot>, IndexFault>
    ensures all { IfOk result (λ slots. slots.items ≡ slots_between (context_of from.now) (context_of to.now) d 0 picks.now) }
    ensures many { IsErrOf result IndexFault.TooMany → IsLarge (context_of from.now) d ⊎ IsLarge (context_of to.now) d }
{
    let mut slots = Vec::new(alloc);
    for (at, pick) in picks.iter().enumerate() {
        slots.push(Slot {
            from: *pick,
            table: table_between(alloc, from, *pick, to, at, d)?,
        })?;
    }
    Ok(slots)
}

// The numbers that the indices of one variable have for another, if there are these two.
fn table_between(
    alloc: Global,
    from: &[Ty],
    pick: usize,
    to: &[Ty],
    at: usize,
    d: u8,
) -> Result<Option<Vec<usize>>, IndexFault>
    ensures all { IfOk result
        (λ table. option_map items_of table ≡ table_between (slice_get (context_of from.now) pick) (slice_get (context_of to.now) at) d) }
    ensures many { IsErrOf result IndexFault.TooMany → IsLarge (context_of from.now) d ⊎ IsLarge (context_of to.now) d }
{
    match from.get(pick) {
        Some(first) => match to.get(at) {
            Some(second) => Ok(Some(renumbering(alloc, first, second, d)?)),
            None => Ok(None),
        },
        None => Ok(None),
    }
}

// The numbers that the indices of one type have among those of another.
fn renumbering(alloc: Global, from: &Ty, to: &Ty, d: u8) -> Result<Vec<usize>, IndexFault>
    ensures all { IfOk result (λ table. table.items ≡ renumbering (ty_of from.now) (ty_of to.now) d) }
    ensures many { IsErrOf result IndexFault.TooMany → IsLarge (ty_of from.now ∷ []) d ⊎ IsLarge (ty_of to.now ∷ []) d }
{
    if from.same(to) {
        let sizes = sizes_of(alloc, from, d)?;
        Ok(up_to(alloc, sizes.len())?)
    } else {
        other_numbers(alloc, from, to, d)
    }
}

// The same for types that differ.
fn other_numbers(alloc: Global, from: &Ty, to: &Ty, d: u8) -> Result<Vec<usize>, IndexFault>
    ensures all { IfOk result (λ table. table.items ≡ renumbering (ty_of from.now) (ty_of to.now) d) }
    ensures many { IsErrOf result IndexFault.TooMany → IsLarge (ty_of from.now ∷ []) d ⊎ IsLarge (ty_of to.now ∷ []) d }
{
    let tuples = singles(alloc, from, d)?;
    let places = places(alloc, singles(alloc, to, d)?)?;
    Ok(places_of(alloc, &tuples, &places)?)
}

// The indices of the type, each a tuple of its own, component by component.
fn singles(alloc: Global, ty: &Ty, d: u8) -> Result<Vec<Tuple>, IndexFault>
    ensures all { IfOk result (λ found. found.items ≡ tuples_up_to (ty_of ty.now ∷ []) d) }
    ensures ascend { IfOk result (λ found. Ascends each_in_turn found.items) }
    ensures many { IsErrOf result IndexFault.TooMany → IsLarge (ty_of ty.now ∷ []) d }
{
    let types = slice::from_ref(ty);
    tuples_up_to(alloc, types, u32::from(d), usize::from(MOST))
}

// The tuples, each found by its hash.
#[tactic(auto, using(crate::proofs::Loops::all_placed))]
fn places(alloc: Global, tuples: Vec<Tuple>) -> Result<IndexSet<Tuple>, AllocError>
    requires { Ascends each_in_turn tuples.items }
    ensures { IfOk result (λ places. places.keys ≡ tuples.items) }
{
    let mut places = IndexSet::with_capacity(alloc, tuples.len())?;
    for tuple in tuples {
        places.insert(tuple)?;
    }
    Ok(places)
}

// The places of the tuples.
fn places_of(
    alloc: Global,
    tuples: &[Tuple],
    places: &IndexSet<Tuple>,
) -> Result<Vec<usize>, AllocError>
    ensures { IfOk result (λ found. found.items ≡ map (λ t. position_or_len (alike t) places.now.keys) tuples.now) }
{
    let mut found = Vec::with_capacity(alloc, tuples.len())?;
    for tuple in tuples {
        found.push(place_of(places, tuple))?;
    }
    Ok(found)
}

// The place of the tuple, or the number of all where it has none.
fn place_of(places: &IndexSet<Tuple>, tuple: &Tuple) -> usize
    ensures { result ≡ position_or_len (alike tuple.now) places.now.keys }
{
    match places.get_index_of(tuple) {
        Some(place) => place,
        None => places.len(),
    }
}
