// The components of a type that are lists or trees, and the sets of them that are joined.
ghost use Rattle.std.specs.Prelude.{◌≡◌, ◌+◌, ◌∷◌, [], ◌++◌, map, filter, take, length, cond, IfOk, OnOk};
ghost use Rattle.raml_syntax.specs.Read.{ty_of};
ghost use Rattle.raml_syntax.specs.SameType.{same_type};
ghost use Rattle.cost_free.specs.Target.{components, holders, subsets, hold, have_one_element, can_join, joined_sets};
ghost use Rattle.cost_free.specs.Read.{holder_of, holders_of, sets_of};

use raml_syntax::Ty;
use std::alloc::{AllocError, Global};

/// A component that is a list or a tree: its place among all components, and the type of its elements.
#[derive(Clone, Copy)]
pub struct Holder<'a> {
    pub place: usize,
    pub element: &'a Ty,
}

/// The place behind. More components than places have no room in memory.
pub fn place_behind(place: usize) -> Result<usize, AllocError>
    ensures { IfOk result (λ behind. behind ≡ place + 1) }
{
    place.checked_add(1).ok_or(AllocError)
}

// Appends the component at the place, and goes to the place behind.
fn append_holder<'a>(
    found: &mut Vec<Holder<'a>>,
    element: &'a Ty,
    place: &mut usize,
) -> Result<(), AllocError>
    ensures all { OnOk result
        (holders_of found.new.items ≡ holders_of found.old.items ++ record { place = place.old; element = ty_of element.now } ∷ []) }
    ensures behind { OnOk result (place.new ≡ place.old + 1) }
{
    found.push(Holder {
        place: *place,
        element,
    })?;
    *place = place_behind(*place)?;
    Ok(())
}

// Appends the lists and trees of the type, whose first component has this place, and goes to the place
// behind the type.
fn append_holders<'a>(
    found: &mut Vec<Holder<'a>>,
    ty: &'a Ty,
    place: &mut usize,
) -> Result<(), AllocError>
    ensures all { OnOk result (holders_of found.new.items ≡ holders_of found.old.items ++ holders place.old (components (ty_of ty.now))) }
    ensures behind { OnOk result (place.new ≡ place.old + length (components (ty_of ty.now))) }
{
    match ty {
        Ty::Int | Ty::Bool => {
            *place = place_behind(*place)?;
            Ok(())
        }
        Ty::Opt(_) => {
            *place = place_behind(*place)?;
            Ok(())
        }
        Ty::Pair(first, second) => {
            append_holders(found, first, place)?;
            append_holders(found, second, place)?;
            Ok(())
        }
        Ty::List(element) => {
            append_holder(found, element, place)?;
            Ok(())
        }
        Ty::Tree(element) => {
            append_holder(found, element, place)?;
            Ok(())
        }
    }
}

fn same_type(one: &Ty, other: &Ty) -> bool
    ensures { result ≡ same_type (ty_of one.now) (ty_of other.now) }
{
    one.same(other)
}

fn hold(element: &Ty, holders: &[Holder<'_>]) -> bool
    ensures { result ≡ hold (ty_of element.now) (holders_of holders.now) }
{
    match holders {
        [] => true,
        [first, rest @ ..] => same_type(element, first.element) && hold(first.element, rest),
    }
}

fn have_one_element(holders: &[Holder<'_>]) -> bool
    ensures { result ≡ have_one_element (holders_of holders.now) }
{
    match holders {
        [] => true,
        [first, rest @ ..] => hold(first.element, rest),
    }
}

fn can_join(holders: &[Holder<'_>]) -> bool
    ensures { result ≡ can_join (holders_of holders.now) }
{
    2 <= holders.len() && holders.len() <= 4 && have_one_element(holders)
}

// Appends the set where it can be joined.
fn append_set<'a>(
    alloc: Global,
    found: &mut Vec<Vec<Holder<'a>>>,
    holders: &[Holder<'a>],
) -> Result<(), AllocError>
    ensures { OnOk result (sets_of found.new.items ≡ sets_of found.old.items
        ++ cond (can_join (holders_of holders.now)) (holders_of holders.now ∷ []) []) }
{
    if can_join(holders) {
        found.push(Vec::from_slice(alloc, holders)?)?;
    }
    Ok(())
}

// Appends the sets of those before and some of the others.
#[cycle(choose)]
fn append_sets<'a>(
    alloc: Global,
    found: &mut Vec<Vec<Holder<'a>>>,
    before: &mut Vec<Holder<'a>>,
    others: &[Holder<'a>],
) -> Result<(), AllocError>
    ensures all { OnOk result (sets_of found.new.items
        ≡ sets_of found.old.items ++ filter can_join (map (λ s. holders_of before.old.items ++ s) (subsets (holders_of others.now)))) }
    ensures kept { OnOk result (before.new.items ≡ before.old.items) }
{
    match others {
        [] => {
            append_set(alloc, found, before)?;
            Ok(())
        }
        [first, more @ ..] => {
            append_with(alloc, found, before, *first, more)?;
            append_sets(alloc, found, before, more)?;
            Ok(())
        }
    }
}

// Appends those that have this one too.
#[cycle(choose)]
fn append_with<'a>(
    alloc: Global,
    found: &mut Vec<Vec<Holder<'a>>>,
    before: &mut Vec<Holder<'a>>,
    first: Holder<'a>,
    more: &[Holder<'a>],
) -> Result<(), AllocError>
    ensures all { OnOk result (sets_of found.new.items
        ≡ sets_of found.old.items
        ++ filter can_join (map (λ s. holders_of before.old.items ++ s)
        (map (λ s. holder_of first.entry ∷ s) (subsets (holders_of more.now))))) }
    ensures kept { OnOk result (before.new.items ≡ before.old.items) }
{
    let count = before.len();
    before.push(first)?;
    append_sets(alloc, found, before, more)?;
    before.truncate(count);
    Ok(())
}

fn first_eight<'a, 'b>(holders: &'b [Holder<'a>]) -> &'b [Holder<'a>]
    ensures { holders_of result.now ≡ take 8 (holders_of holders.now) }
{
    if holders.len() <= 8 {
        holders
    } else {
        &holders[..8]
    }
}

/// The sets of components that are joined: two to four with elements of one type, among the first eight
/// that are lists or trees.
pub fn joined_sets<'a>(alloc: Global, ty: &'a Ty) -> Result<Vec<Vec<Holder<'a>>>, AllocError>
    ensures { IfOk result (λ found. sets_of found.items ≡ joined_sets (ty_of ty.now)) }
{
    let mut holders = Vec::new(alloc);
    append_holders(&mut holders, ty, &mut 0)?;
    let mut found = Vec::new(alloc);
    append_sets(
        alloc,
        &mut found,
        &mut Vec::new(alloc),
        first_eight(&holders),
    )?;
    Ok(found)
}
