// Lists of entries.
ghost use Rattle.std.specs.Prelude.{◌≡◌, ◌<◌, ◌*◌, ◌∷◌, [], map, take, vec_len, IfOk, OnOk};
ghost use Rattle.rules_spec.specs.Walk.{at, added, brought, nothing, numbers, multiples, at_zero, moved, all_moved, joined};
ghost use Rattle.rules_walk.specs.Steps.{step_of, part_of};
ghost use Rattle.rules_walk.specs.Read.{items_at};

use crate::kind::Kind;
use crate::plan::{Part, Step};
use index_shift::Entry;
use std::alloc::{AllocError, Global};

/// So many entries of nothing.
pub fn nothing<T: Kind>(alloc: Global, size: usize) -> Result<Vec<T>, AllocError>
    ensures { IfOk result (λ out. out.items ≡ nothing T.kind size) }
{
    let mut out = Vec::with_capacity(alloc, size)?;
    for _ in 0..size {
        out.push(T::none(alloc))?;
    }
    Ok(out)
}

// A multiple of an entry is added at a position, where there is such a position.
fn add_at<T: Kind>(out: &mut Vec<T>, position: u32, times: u64, entry: &T) -> Result<(), AllocError>
    ensures { OnOk result (out.new.items ≡ added T.kind out.old.items position times entry.now) }
{
    let to = position as usize;
    if to < out.len() {
        out[to].add(times, entry)?;
    }
    Ok(())
}

/// What the entries of a map bring is added.
pub fn bring<T: Kind>(
    alloc: Global,
    out: &mut Vec<T>,
    map: &[Entry],
    from: &[T],
) -> Result<(), AllocError>
    ensures { OnOk result (out.new.items ≡ brought T.kind out.old.items map.now from.now) }
{
    let none = T::none(alloc);
    for entry in map {
        let other = from.get(entry.from as usize).unwrap_or(&none);
        add_at(out, entry.to, entry.times, other)?;
    }
    Ok(())
}

// The number at a place as an entry; nothing where there is no such place.
fn number_at<T: Kind>(alloc: Global, from: &[u128], place: usize) -> T
    ensures { result ≡ at T.kind (numbers T.kind from.now) place }
{
    match from.get(place) {
        Some(number) => T::number(alloc, 1, *number),
        None => T::none(alloc),
    }
}

/// What they bring from numbers is added.
pub fn bring_numbers<T: Kind>(
    alloc: Global,
    out: &mut Vec<T>,
    map: &[Entry],
    from: &[u128],
) -> Result<(), AllocError>
    ensures { OnOk result (out.new.items ≡ brought T.kind out.old.items map.now (numbers T.kind from.now)) }
{
    for entry in map {
        let number = number_at(alloc, from, entry.from as usize);
        add_at(out, entry.to, entry.times, &number)?;
    }
    Ok(())
}

// The entry, as often as the number at a place tells; nothing where there is no such place.
fn multiple_at<T: Kind>(
    alloc: Global,
    entry: &T,
    from: &[u128],
    place: usize,
) -> Result<T, AllocError>
    ensures { IfOk result (λ multiple. multiple ≡ at T.kind (multiples T.kind entry.now from.now) place) }
{
    match from.get(place) {
        Some(number) => entry.multiple(alloc, *number),
        None => Ok(T::none(alloc)),
    }
}

/// What they bring from multiples of an entry is added.
pub fn bring_multiples<T: Kind>(
    alloc: Global,
    out: &mut Vec<T>,
    map: &[Entry],
    entry: &T,
    from: &[u128],
) -> Result<(), AllocError>
    ensures { OnOk result (out.new.items ≡ brought T.kind out.old.items map.now (multiples T.kind entry.now from.now)) }
{
    for step in map {
        let multiple = multiple_at(alloc, entry, from, step.from as usize)?;
        add_at(out, step.to, step.times, &multiple)?;
    }
    Ok(())
}

/// The entries once more.
pub fn copies<T: Kind>(alloc: Global, entries: &[T]) -> Result<Vec<T>, AllocError>
    ensures { IfOk result (λ out. out.items ≡ entries.now) }
{
    let mut out = Vec::with_capacity(alloc, entries.len())?;
    for entry in entries {
        out.push(entry.copy(alloc)?)?;
    }
    Ok(out)
}

/// What a map makes of the entries.
pub fn moved<T: Kind>(alloc: Global, step: &Step, from: &[T]) -> Result<Vec<T>, AllocError>
    ensures { IfOk result (λ out. out.items ≡ moved T.kind (step_of step.now) from.now) }
{
    let mut out = nothing(alloc, step.size)?;
    bring(alloc, &mut out, &step.entries, from)?;
    Ok(out)
}

// What one map after the other makes of them.
fn moved_on<T: Kind>(alloc: Global, steps: &[Step], entries: Vec<T>) -> Result<Vec<T>, AllocError>
    ensures { IfOk result (λ out. out.items ≡ all_moved T.kind (map step_of steps.now) entries.items) }
{
    let mut now = entries;
    for step in steps {
        now = moved(alloc, step, &now)?;
    }
    Ok(now)
}

/// The same of entries that stay: they are copied only where there is no map.
pub fn all_moved<T: Kind>(alloc: Global, steps: &[Step], from: &[T]) -> Result<Vec<T>, AllocError>
    ensures { IfOk result (λ out. out.items ≡ all_moved T.kind (map step_of steps.now) from.now) }
{
    match steps {
        [] => copies(alloc, from),
        [first, rest @ ..] => moved_on(alloc, rest, moved(alloc, first, from)?),
    }
}

/// One number alone.
pub fn number_alone<T: Kind>(alloc: Global, n: u32, scale: u128) -> Result<Vec<T>, AllocError>
    ensures { IfOk result (λ out. out.items ≡ T.kind.number (n * scale) ∷ []) }
{
    let mut out = Vec::new(alloc);
    out.push(T::number(alloc, n, scale))?;
    Ok(out)
}

/// A price is added to the first entry.
pub fn raise_first<T: Kind>(entries: &mut Vec<T>, n: u32, scale: u128)
    ensures { entries.new.items ≡ at_zero (T.kind.plus (T.kind.number (n * scale))) entries.old.items }
{
    if let Some(first) = entries.first_mut() {
        first.raise(n, scale);
    }
}

/// The first entry pays a price.
pub fn lower_first<T: Kind>(entries: &mut Vec<T>, n: u32, scale: u128)
    ensures { entries.new.items ≡ at_zero (T.kind.less (n * scale)) entries.old.items }
{
    if let Some(first) = entries.first_mut() {
        first.lower(n, scale);
    }
}

/// The items at a place of a list; none where there is no such place.
pub fn entries_at<T>(lists: &[Vec<T>], place: usize) -> &[T]
    ensures { result.now ≡ items_at lists.now place }
{
    match lists.get(place) {
        Some(list) => list,
        None => &[],
    }
}

/// What the results of a `let` bring to the context of the rest, which has so many positions.
pub fn joined<T: Kind>(
    alloc: Global,
    size: usize,
    parts: &[Part],
    results: &[Vec<T>],
) -> Result<Vec<T>, AllocError>
    ensures { IfOk result (λ out. out.items
        ≡ joined T.kind (nothing T.kind size) 0 (map part_of parts.now) (map (λ v. v.items) results.now)) }
{
    let mut out = nothing(alloc, size)?;
    for number in 0..parts.len() {
        bring(
            alloc,
            &mut out,
            &parts[number].joins,
            entries_at(results, number),
        )?;
    }
    Ok(out)
}
