//! The targets of types, against a table that was worked out apart.
use base_poly::{IndexFault, Tuple};
use cost_free::{TargetList, targets};
use raml_syntax::Ty;
use std::alloc::{AllocError, Global};
use std::process::Abort;
use std::test::Fail;
use tests_support::index_text::write_all;
use tests_support::types::last_type;

mod tables;

// A line with tuples.
fn write_tuples(out: &mut String, tuples: &[Tuple]) -> Result<(), AllocError> {
    for tuple in tuples {
        out.push_str(" <")?;
        write_all(out, tuple.parts())?;
        out.push_str(">")?;
    }
    out.push_str("\n")
}

// The tuples of the target of this number.
fn write_target(
    alloc: Global,
    out: &mut String,
    targets: &TargetList<'_>,
    number: usize,
) -> Result<(), Fail> {
    match targets.get(alloc, number)? {
        Some(target) => write_tuples(out, target.tuples())?,
        None => out.push_str(" none")?,
    }
    Ok(())
}

// The targets at the degrees from 1 to 3, as the table has them.
fn listed(alloc: Global, ty: &Ty) -> Result<String, Fail> {
    let mut out = String::new(alloc);
    for d in 1..4 {
        let found = targets(alloc, ty, d)?;
        let head = format!(in alloc; "degree {d}: {} targets\n", found.len())?;
        out.push_str(head.as_str())?;
        for number in 0..found.len() {
            let head = format!(in alloc; "  {number}:")?;
            out.push_str(head.as_str())?;
            write_target(alloc, &mut out, &found, number)?;
        }
    }
    Ok(out)
}

#[test]
fn targets_are_those_of_the_table(rt: HostRuntime) -> Result<(), Fail> {
    let alloc = rt.alloc();
    for (words, table) in [
        ("int", tables::INT),
        ("int list", tables::LIST),
        ("int list int list pair", tables::TWO_LISTS),
        ("int list int tree bool list pair pair", tables::THREE),
        ("int list tree", tables::TREE_OF_LISTS),
        ("int list list int list list pair", tables::TWO_NESTED),
    ] {
        let listed = listed(alloc, &last_type(alloc, words)?)?;
        assert_eq!(rt; listed.as_str(), table);
    }
    Ok(())
}

// The targets from this number on.
fn listed_from(alloc: Global, targets: &TargetList<'_>, first: usize) -> Result<String, Fail> {
    let mut out = String::new(alloc);
    for number in first..targets.len() {
        write_target(alloc, &mut out, targets, number)?;
    }
    Ok(out)
}

// There are thirteen tuples, and then the joined targets: those with the list index [[]], with [[], []], and with
// [[_]]. Each comes with the first two components, with all, with the first and the last, and with the last two.
#[test]
fn list_indices_come_before_components(rt: HostRuntime) -> Result<(), Fail> {
    let alloc = rt.alloc();
    let words = "int list list int list list int list list pair pair";
    let ty = last_type(alloc, words)?;
    let listed = listed_from(alloc, &targets(alloc, &ty, 2)?, 13)?;
    assert_eq!(rt; listed.as_str(), tables::JOINED_OF_THREE_NESTED);
    Ok(())
}

// The type of a pair of a list and the rest, as often as there are to be lists.
fn joined_lists(alloc: Global, lists: usize) -> Result<Ty, Fail> {
    let mut ty = last_type(alloc, "int list")?;
    for _ in 1..lists {
        let list = Box::new(alloc, last_type(alloc, "int list")?)?;
        ty = Ty::Pair(list, Box::new(alloc, ty)?);
    }
    Ok(ty)
}

// In how many of the targets from the first number on the tuple of the other number stands.
fn standing_in(
    alloc: Global,
    targets: &TargetList<'_>,
    first: usize,
    number: usize,
) -> Result<usize, Fail> {
    let mut single = String::new(alloc);
    write_target(alloc, &mut single, targets, number)?;
    let mut count: usize = 0;
    for line in listed_from(alloc, targets, first)?.lines() {
        if line.contains(single.trim()) {
            count = count.wrapping_add(1);
        }
    }
    Ok(count)
}

// At degree 1 nine lists have the zero tuple, one for each list, that for the last one first, and then joined
// targets. Each of the first eight is joined with one, two or three of the seven others: 7 + 21 + 35. The ninth
// is not.
#[test]
fn the_ninth_list_is_not_joined(rt: HostRuntime) -> Result<(), Fail> {
    let alloc = rt.alloc();
    let ty = joined_lists(alloc, 9)?;
    let targets = targets(alloc, &ty, 1)?;
    assert_eq!(rt; standing_in(alloc, &targets, 10, 1)?, 0);
    for number in 2..10 {
        assert_eq!(rt;
            standing_in(alloc, &targets, 10, number)?,
            63,
            "of {number}"
        );
    }
    Ok(())
}

// The first eight of nine lists are joined, two to four at a time, with each of four list indices; nine
// lists have 715 indices of degree 4 at most, 24 have 20475.
#[test]
fn many_lists_have_many_targets(rt: HostRuntime) -> Result<(), Fail> {
    let alloc = rt.alloc();
    for (lists, wanted) in [(8, Some(1111)), (9, Some(1331)), (24, None)] {
        let ty = joined_lists(alloc, lists)?;
        match targets(alloc, &ty, 4) {
            Ok(found) => assert_eq!(rt; Some(found.len()), wanted),
            Err(fault) => {
                assert_eq!(rt; fault, IndexFault::TooMany);
                assert_eq!(rt; None, wanted);
            }
        }
    }
    Ok(())
}
