//! Lists of the tuples of contexts.
use base_poly::{Index, IndexFault, Tuple, indices};
use indexmap::IndexMap;
use raml_syntax::Ty;
use std::alloc::{AllocError, Global};
use std::fmt::Write;
use std::process::Abort;
use std::test::Fail;
use tests_support::index_text::{write_index, write_tuple};
use tests_support::types::{context, last_type, lists};

mod tables;

// Whether there are just as many tuples as this.
fn has_just(alloc: Global, types: &[Ty], d: u8, count: usize) -> Result<bool, IndexFault> {
    let found = indices(alloc, types, d, count)?;
    let fewer = indices(alloc, types, d, count.saturating_sub(1));
    Ok(found.len() == count && fewer.err() == Some(IndexFault::TooMany))
}

// Adds the tuples of degree `d`, as a table has them.
fn push_listed(
    out: &mut String,
    rt: &impl Abort,
    alloc: Global,
    types: &[Ty],
    d: u8,
) -> Result<(), Fail> {
    let found = indices(alloc, types, d, 2000)?;
    assert!(rt; has_just(alloc, types, d, found.len())?);
    write!(out, "degree {d}: {}\n", found.len())?;
    for tuple in &found {
        write_tuple(out, tuple)?;
    }
    Ok(())
}

// The tuples of each degree below `end`, as a table has them.
fn listed(rt: &impl Abort, alloc: Global, words: &str, end: u8) -> Result<String, Fail> {
    let types = context(alloc, words)?;
    let mut out = String::new(alloc);
    for d in 0..end {
        push_listed(&mut out, rt, alloc, &types, d)?;
    }
    Ok(out)
}

// The types of a context, the degree below which its tuples are listed, and their table.
const LISTS: [(&str, u8, &str); 12] = [
    ("", 5, tables::NO_TYPES),
    ("int", 5, tables::INT),
    ("int list", 5, tables::LIST),
    ("int list int list", 5, tables::TWO_LISTS),
    ("int tree", 5, tables::LIST),
    ("int list list", 5, tables::NESTED),
    ("int list tree", 5, tables::NESTED),
    ("int list bool list pair", 5, tables::PAIR),
    ("int int list pair list int", 5, tables::LIST_OF_PAIRS),
    ("int list int tree int list list", 4, tables::THREE),
    ("int list option", 5, tables::OPTION),
    ("int option list int option", 4, tables::LIST_OF_OPTIONS),
];

#[test]
fn indices_are_in_order(rt: HostRuntime) -> Result<(), Fail> {
    for (words, end, table) in &LISTS {
        let listed = listed(&rt, rt.alloc(), words, *end)?;
        assert_eq!(rt; listed.as_str(), *table, "of {words}");
    }
    Ok(())
}

// Whether as many lists have just as many tuples of degree at most 4 as the line says.
fn has_its_count(alloc: Global, line: &str) -> Result<bool, Fail> {
    let mut words = line.split_whitespace();
    let count = words.next().ok_or("a line")?.parse::<usize>()?;
    let wanted = words.next().ok_or("a line")?.parse::<usize>()?;
    Ok(has_just(alloc, &lists(alloc, count)?, 4, wanted)?)
}

#[test]
fn lists_have_as_many_indices(rt: HostRuntime) -> Result<(), Fail> {
    for line in tables::COUNTS.lines() {
        assert!(rt; has_its_count(rt.alloc(), line)?, "{line}");
    }
    Ok(())
}

#[test]
fn as_many_as_asked_are_not_too_many(rt: HostRuntime) -> Result<(), Fail> {
    let types = lists(rt.alloc(), 8)?;
    assert!(rt; has_just(rt.alloc(), &types, 4, 495)?);
    Ok(())
}

// The place of each tuple.
fn places(alloc: Global, tuples: &[Tuple]) -> Result<IndexMap<Tuple, usize>, AllocError> {
    let mut places = IndexMap::new(alloc);
    for tuple in tuples {
        places.insert(tuple.copy(alloc)?, places.len())?;
    }
    Ok(places)
}

// The tuples of the words' types.
fn tuples(alloc: Global, words: &str) -> Result<Vec<Tuple>, Fail> {
    let types = context(alloc, words)?;
    Ok(indices(alloc, &types, 2, 10)?)
}

// Whether each tuple has its own place, or none has one where `wanted` is false.
fn are_there(places: &IndexMap<Tuple, usize>, tuples: &[Tuple], wanted: bool) -> bool {
    for (place, tuple) in tuples.iter().enumerate() {
        if places.get(tuple).copied() != wanted.then_some(place) {
            return false;
        }
    }
    true
}

// Whether each of these tuples has its own place among those of `int list int option`, or none has one.
fn are_keys(alloc: Global, tuples: &[Tuple], wanted: bool) -> Result<bool, Fail> {
    let listed = self::tuples(alloc, "int list int option")?;
    let places = places(alloc, &listed)?;
    Ok(are_there(&places, tuples, wanted))
}

#[test]
fn tuples_are_keys(rt: HostRuntime) -> Result<(), Fail> {
    for (words, wanted) in [("int list int option", true), ("int list", false)] {
        let tuples = tuples(rt.alloc(), words)?;
        assert!(rt; are_keys(rt.alloc(), &tuples, wanted)?, "of {words}");
    }
    Ok(())
}

// The tuples of the types, sorted from the last on.
fn sorted(alloc: Global, types: &[Ty]) -> Result<Vec<Tuple>, Fail> {
    let mut sorted = indices(alloc, types, 2, 10)?;
    sorted.reverse();
    sorted.sort()?;
    Ok(sorted)
}

#[test]
fn tuples_sort_as_they_are_listed(rt: HostRuntime) -> Result<(), Fail> {
    let types = lists(rt.alloc(), 3)?;
    let listed = indices(rt.alloc(), &types, 2, 10)?;
    assert!(rt; sorted(rt.alloc(), &types)? == listed);
    Ok(())
}

// The text of the zero index of the words' last type.
fn zero_text(alloc: Global, words: &str) -> Result<String, Fail> {
    let ty = last_type(alloc, words)?;
    let zero = Index::zero(alloc, &ty)?;
    let mut out = String::new(alloc);
    write_index(&mut out, &zero)?;
    Ok(out)
}

#[test]
fn zero_indices_have_no_entries(rt: HostRuntime) -> Result<(), Fail> {
    let text = zero_text(rt.alloc(), "int list bool pair int option pair")?;
    assert_eq!(rt; text.as_str(), "(([], _), [])");
    Ok(())
}
