// How the tuples of one variable are carried, whatever stands beside it.
ghost use Rattle.std.specs.Prelude.{◌≡◌, ◌≤◌, [], ◌∷◌, All, map, length, slice_index_or, IfOk, OnOk, IsErrOf};
ghost use Rattle.std.specs.List.{position_or_len};
ghost use Rattle.raml_syntax.specs.Read.{ty_of};
ghost use Rattle.base_poly.specs.Plain.{degrees, alike};
ghost use Rattle.base_poly.specs.Indices.{Ascends, each_in_turn, tuples_up_to};
ghost use Rattle.base_poly.specs.Read.{context_of};
ghost use Rattle.index_shift.specs.Parts.{type_parts};
ghost use Rattle.index_shift.specs.Maps.{opens, leaves, joins, IsTooLarge};
ghost use Rattle.index_shift.specs.Local.{IsLocal, IsMapBetween, AreSmall, AreLarge, target_at, middle_at, alone_of};
ghost use Rattle.index_shift.specs.Lengths.{lists_opened, lists_left};
ghost use Rattle.index_shift.specs.Read.{carry_of, middle_of, middles_of, CanCarry};

use crate::carry::Carry;
use crate::context::{two, type_parts};
use crate::entry::Entry;
use crate::fault::MapFault;
use crate::lengths::{has_lengths, left, lengths, opened};
use crate::lift::{Middle, Target, lift};
use crate::tables::counts;
use base_poly::{Tuple, degrees, tuples_up_to};
use indexmap::IndexSet;
use raml_syntax::Ty;
use std::alloc::{AllocError, Global};
use std::marker::Model;
use std::slice;

/// The most indices that a context may have.
pub const MOST: u16 = 2000;

/// How the tuples of one variable are carried up to a degree, whatever stands beside it: it is kept
/// for each type, kind and degree by whoever makes many maps.
#[derive(Drop)]
pub struct Local {
    degree: u8,
    // the degrees of the tuples that are carried, and of those to which they may be, component by component
    old: Vec<u8>,
    new: Vec<u8>,
    middles: Vec<Middle>,
}

impl Model for Local {
    ghost use Rattle.index_shift.specs.Local.{Alone};
    ghost use Rattle.index_shift.specs.Read.{middles_of};

    ghost Value = { Alone };

    ghost view = { λ l. record {
      degree = l.degree;
      old = l.old.items;
      new = l.new.items;
      middles = middles_of l.middles.items;
    } };
}

impl Local {
    /// A variable of this type is taken apart.
    ///
    /// `TooMany` where it or its parts alone have more than 2000 indices of degree at most `d`.
    pub fn opening(alloc: Global, ty: &Ty, d: u8) -> Result<Local, MapFault>
        requires low { d ≤ 4 }
        ensures is { IfOk result (λ local. IsLocal (opens (ty_of ty.now)) (ty_of ty.now ∷ []) (type_parts (ty_of ty.now)) d local) }
        ensures many { IsErrOf result MapFault.TooMany → IsTooLarge (ty_of ty.now ∷ []) (type_parts (ty_of ty.now)) d }
    {
        if has_lengths(ty) {
            Ok(lists_opened(alloc, d)?)
        } else {
            taken_apart(alloc, ty, d)
        }
    }

    /// A variable of this type leaves.
    ///
    /// `TooMany` where it alone has more than 2000 indices of degree at most `d`.
    pub fn leaving(alloc: Global, ty: &Ty, d: u8) -> Result<Local, MapFault>
        requires low { d ≤ 4 }
        ensures is { IfOk result (λ local. IsLocal leaves (ty_of ty.now ∷ []) [] d local) }
        ensures many { IsErrOf result MapFault.TooMany → IsTooLarge (ty_of ty.now ∷ []) [] d }
    {
        if has_lengths(ty) {
            Ok(lists_left(alloc, d)?)
        } else {
            left_out(alloc, ty, d)
        }
    }

    /// A variable of this type is shared: two become one.
    ///
    /// `TooMany` where two of them alone have more than 2000 indices of degree at most `d`.
    pub fn sharing(alloc: Global, ty: &Ty, d: u8) -> Result<Local, MapFault>
        requires low { d ≤ 4 }
        ensures is { IfOk result (λ local. IsLocal joins (ty_of ty.now ∷ (ty_of ty.now ∷ [])) (ty_of ty.now ∷ []) d local) }
        ensures many { IsErrOf result MapFault.TooMany → IsTooLarge (ty_of ty.now ∷ (ty_of ty.now ∷ [])) (ty_of ty.now ∷ []) d }
    {
        let from = two(alloc, ty, ty)?;
        carried_alone(alloc, Carry::Join, &from, slice::from_ref(ty), d)
    }

    /// The map of a context, from the degrees of the tuples before the variable and behind it,
    /// component by component.
    ///
    /// `TooMany` where one of the two contexts has more than 2000 indices.
    pub fn map(&self, alloc: Global, before: &[u8], after: &[u8]) -> Result<Vec<Entry>, MapFault>
        ensures map { IfOk result (λ found. IsMapBetween before.now self.now after.now found.items) }
        ensures few { OnOk result (AreSmall before.now self.now after.now) }
        ensures many { IsErrOf result MapFault.TooMany → AreLarge before.now self.now after.now }
    {
        let (old, new) = (&self.old, &self.new);
        between(alloc, before, old, new, &self.middles, after, self.degree)
    }
}

// Lists are taken apart whose elements have one index.
fn lists_opened(alloc: Global, d: u8) -> Result<Local, AllocError>
    requires low { d ≤ 4 }
    ensures { IfOk result (λ local. local ≡ lists_opened d) }
{
    Ok(Local {
        degree: d,
        old: lengths(alloc, d + 1)?,
        new: lengths(alloc, d + 1)?,
        middles: opened(alloc, d + 1)?,
    })
}

// Such lists leave.
fn lists_left(alloc: Global, d: u8) -> Result<Local, AllocError>
    requires low { d ≤ 4 }
    ensures { IfOk result (λ local. local ≡ lists_left d) }
{
    Ok(Local {
        degree: d,
        old: lengths(alloc, d + 1)?,
        new: lengths(alloc, 1)?,
        middles: left(alloc, d + 1)?,
    })
}

// A variable of any type is taken apart.
fn taken_apart(alloc: Global, ty: &Ty, d: u8) -> Result<Local, MapFault>
    requires low { d ≤ 4 }
    ensures is { IfOk result (λ local. IsLocal (opens (ty_of ty.now)) (ty_of ty.now ∷ []) (type_parts (ty_of ty.now)) d local) }
    ensures many { IsErrOf result MapFault.TooMany → IsTooLarge (ty_of ty.now ∷ []) (type_parts (ty_of ty.now)) d }
{
    let to = type_parts(alloc, ty)?;
    carried_alone(alloc, Carry::Open(ty), slice::from_ref(ty), &to, d)
}

// A variable of any type leaves.
fn left_out(alloc: Global, ty: &Ty, d: u8) -> Result<Local, MapFault>
    requires low { d ≤ 4 }
    ensures is { IfOk result (λ local. IsLocal leaves (ty_of ty.now ∷ []) [] d local) }
    ensures many { IsErrOf result MapFault.TooMany → IsTooLarge (ty_of ty.now ∷ []) [] d }
{
    carried_alone(alloc, Carry::Leave, slice::from_ref(ty), &[], d)
}

// The map, where the two contexts are small enough.
fn between(
    alloc: Global,
    before: &[u8],
    old: &[u8],
    new: &[u8],
    middles: &[Middle],
    after: &[u8],
    d: u8,
) -> Result<Vec<Entry>, MapFault>
    ensures map { IfOk result
        (λ found. IsMapBetween before.now
        (record { degree = d; old = old.now; new = new.now; middles = middles_of middles.now }) after.now found.items) }
    ensures few { OnOk result
        (AreSmall before.now (record { degree = d; old = old.now; new = new.now; middles = middles_of middles.now }) after.now) }
    ensures many { IsErrOf result MapFault.TooMany →
        AreLarge before.now (record { degree = d; old = old.now; new = new.now; middles = middles_of middles.now }) after.now }
{
    counts(alloc, before, old, after, d, MOST)?;
    let counts = counts(alloc, before, new, after, d, MOST)?;
    Ok(lift(alloc, &counts, middles, d)?)
}

// How the tuples of these types are carried.
fn carried_alone(
    alloc: Global,
    carry: Carry<'_>,
    from: &[Ty],
    to: &[Ty],
    d: u8,
) -> Result<Local, MapFault>
    requires can { All (CanCarry carry) (tuples_up_to (context_of from.now) d) }
    ensures is { IfOk result (λ local. local ≡ alone_of (carry_of carry.entry) (context_of from.now) (context_of to.now) d) }
    ensures many { IsErrOf result MapFault.TooMany → IsTooLarge (context_of from.now) (context_of to.now) d }
{
    let old = degrees(alloc, from, d, usize::from(MOST))?;
    let new = degrees(alloc, to, d, usize::from(MOST))?;
    let tuples = tuples_up_to(alloc, from, u32::from(d), usize::from(MOST))?;
    let places = places(
        alloc,
        tuples_up_to(alloc, to, u32::from(d), usize::from(MOST))?,
    )?;
    let middles = middles(alloc, carry, &tuples, &places, &new)?;
    Ok(Local {
        degree: d,
        old,
        new,
        middles,
    })
}

// The tuples, each found by its hash.
#[tactic(auto, using(crate::proofs::Placed::all_placed))]
fn places(alloc: Global, tuples: Vec<Tuple>) -> Result<IndexSet<Tuple>, AllocError>
    requires { Ascends each_in_turn tuples.items }
    ensures { IfOk result (λ places. places.keys ≡ tuples.items) }
{
    let mut places = IndexSet::with_capacity(alloc, tuples.len())?;
    for tuple in tuples {
        places.insert(tuple)?;
    }
    Ok(places)
}

// To what each of the tuples is carried, where these are the new tuples and their degrees.
fn middles(
    alloc: Global,
    carry: Carry<'_>,
    tuples: &[Tuple],
    places: &IndexSet<Tuple>,
    new: &[u8],
) -> Result<Vec<Middle>, AllocError>
    requires can { All (CanCarry carry) tuples.now }
    requires low { All (λ t. degrees t ≤ 255) tuples.now }
    requires few { length places.now.keys ≤ 2000 }
    ensures { IfOk result (λ found. middles_of found.items ≡ map (middle_at (carry_of carry.entry) places.now.keys new.now) tuples.now) }
{
    let mut found = Vec::new(alloc);
    for tuple in tuples {
        found.push(middle(alloc, carry, tuple, places, new)?)?;
    }
    Ok(found)
}

// To what the tuple is carried.
fn middle(
    alloc: Global,
    carry: Carry<'_>,
    tuple: &Tuple,
    places: &IndexSet<Tuple>,
    new: &[u8],
) -> Result<Middle, AllocError>
    requires can { CanCarry carry tuple.now }
    requires low { degrees tuple.now ≤ 255 }
    requires few { length places.now.keys ≤ 2000 }
    ensures { IfOk result (λ middle. middle_of middle ≡ middle_at (carry_of carry.entry) places.now.keys new.now tuple.now) }
{
    let degree = tuple.degree() as u8;
    let carried = carry.targets(alloc, tuple)?;
    let targets = targets(alloc, &carried, places, new)?;
    Ok(Middle { degree, targets })
}

// The places, degrees and numbers of these tuples.
fn targets(
    alloc: Global,
    carried: &[(Tuple, u64)],
    places: &IndexSet<Tuple>,
    new: &[u8],
) -> Result<Vec<Target>, AllocError>
    requires { length places.now.keys ≤ 2000 }
    ensures { IfOk result (λ found. found.items ≡ map (target_at places.now.keys new.now) carried.now) }
{
    let mut found = Vec::new(alloc);
    for (tuple, times) in carried {
        found.push(target(place_of(places, tuple), *times, new))?;
    }
    Ok(found)
}

fn target(place: usize, times: u64, new: &[u8]) -> Target
    requires { place ≤ 2000 }
    ensures { result ≡ record { place = place; degree = slice_index_or new.now place 0; times = times } }
{
    Target {
        place: place as u32,
        degree: degree_at(new, place),
        times,
    }
}

// The degree at the place, 0 past the end.
fn degree_at(degrees: &[u8], place: usize) -> u8
    ensures { result ≡ slice_index_or degrees.now place 0 }
{
    match degrees.get(place) {
        Some(degree) => *degree,
        None => 0,
    }
}

// The place of the tuple, or the number of all where it has none.
#[tactic(auto, using(crate::proofs::Placed::none_placed))]
fn place_of(places: &IndexSet<Tuple>, tuple: &Tuple) -> usize
    ensures { result ≡ position_or_len (alike tuple.now) places.now.keys }
{
    match places.get_index_of(tuple) {
        Some(place) => place,
        None => places.len(),
    }
}
