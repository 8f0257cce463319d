//! Where tuples stand among those of another context, worked out by hand.
//!
//! Up to degree 2 two lists have the tuples 0: <[], []>, 1: <[], [_]>, 2: <[_], []>, 3: <[], [_, _]>,
//! 4: <[_], [_]> and 5: <[_, _], []>. Up to degree 1 some lists have the zero tuple, and then one for each list,
//! that for the last one first.
use base_poly::IndexFault;
use std::alloc::Global;
use std::fmt::Write;
use std::test::Fail;
use tests_support::types::{context, last_type, lists};
use tuple_ranks::{Joined, cut_spots, half_spots, joined_spots, permuted_spots};

// Where each variable stands among those behind it, the types, those in the other order, a degree, and the places.
const PERMUTED: [(&[usize], &str, &str, u8, &str); 3] = [
    // of <[], [[], []]>, <[], [[_]]>, <[_], [[]]> and <[_, _], []> the second index comes first: 5, 6, 4, 3
    (
        &[1, 0],
        "int list int list list",
        "int list list int list",
        2,
        "[0, 2, 1, 5, 6, 4, 3]",
    ),
    // the first variable comes last: that of the last one is now the second, and so on
    (
        &[2, 0, 0],
        "int list int list int list",
        "int list int list int list",
        1,
        "[0, 2, 3, 1]",
    ),
    // neither index of a list is one of a number
    (&[0], "int list", "int", 1, "[1, 1]"),
];

fn permuted(alloc: Global, order: &[usize], from: &str, to: &str, d: u8) -> Result<String, Fail> {
    let (from, to) = (context(alloc, from)?, context(alloc, to)?);
    let found = permuted_spots(alloc, order, &from, &to, d)?;
    let spots = found.as_slice();
    Ok(format!(in alloc; "{spots:?}")?)
}

#[test]
fn tuples_stand_in_another_order(rt: HostRuntime) -> Result<(), Fail> {
    for (order, from, to, d, want) in &PERMUTED {
        let found = permuted(rt.alloc(), order, from, to, *d)?;
        assert_eq!(rt; found.as_str(), *want, "of {from}");
    }
    Ok(())
}

fn halves(alloc: Global, marks: &[bool], words: &str, d: u8) -> Result<String, Fail> {
    let found = half_spots(alloc, marks, &context(alloc, words)?, d)?;
    let spots = found.as_slice();
    Ok(format!(in alloc; "{spots:?}")?)
}

// The second list is marked; and then the first and the third of three.
#[test]
fn tuples_have_two_halves(rt: HostRuntime) -> Result<(), Fail> {
    let found = halves(rt.alloc(), &[false, true], "int list int list", 2)?;
    let want = "[(0, 0), (0, 1), (1, 0), (0, 2), (1, 1), (2, 0)]";
    assert_eq!(rt; found.as_str(), want);
    let found = halves(
        rt.alloc(),
        &[true, false, true],
        "int list int list int list",
        1,
    )?;
    assert_eq!(rt; found.as_str(), "[(0, 0), (0, 1), (1, 0), (0, 2)]");
    Ok(())
}

// Each tuple's degree, and where the others stand behind it.
fn push_joined(out: &mut String, found: &[Joined]) -> Result<(), Fail> {
    for joined in found {
        let spots = joined.spots.as_slice();
        write!(out, "{} {spots:?}; ", joined.degree)?;
    }
    Ok(())
}

fn joined(alloc: Global, first: &str, second: &str, d: u8) -> Result<String, Fail> {
    let (first, second) = (context(alloc, first)?, context(alloc, second)?);
    let mut out = String::new(alloc);
    push_joined(&mut out, &joined_spots(alloc, &first, &second, d)?)?;
    Ok(out)
}

#[test]
fn tuples_stand_behind_others(rt: HostRuntime) -> Result<(), Fail> {
    let found = joined(rt.alloc(), "int list", "int list", 2)?;
    assert_eq!(rt; found.as_str(), "0 [0, 1, 3]; 1 [2, 4]; 2 [5]; ");
    Ok(())
}

// All that a cut tells.
fn cut(alloc: Global, marks: &[bool], words: &str, bound: &str, d: u8) -> Result<String, Fail> {
    let bound = last_type(alloc, bound)?;
    let cut = cut_spots(alloc, marks, &context(alloc, words)?, &bound, d)?;
    let halves = cut.halves.as_slice();
    let mut out = format!(in alloc; "{halves:?}; ")?;
    push_joined(&mut out, &cut.joined)?;
    for counts in [&cut.whole, &cut.marked, &cut.others, &cut.bound, &cut.rest] {
        let counts = counts.as_slice();
        write!(out, "{counts:?} ")?;
    }
    Ok(out)
}

// Of five lists the second alone is left, and a pair of two lists stands behind it. Up to degree 1 there are six
// tuples of all, five of the marked ones, two of the other, three of the pair, and four of the other and the pair.
#[test]
fn a_context_is_cut(rt: HostRuntime) -> Result<(), Fail> {
    let found = cut(
        rt.alloc(),
        &[true, false, true, true, true],
        "int list int list int list int list int list",
        "int list int list pair",
        1,
    )?;
    let want = "[(0, 0), (0, 1), (0, 2), (0, 3), (1, 0), (0, 4)]; 0 [0, 1, 2]; 1 [3]; \
        [1, 6] [1, 5] [1, 2] [1, 3] [1, 4] ";
    assert_eq!(rt; found.as_str(), want);
    let found = cut(rt.alloc(), &[true], "int list", "int list", 0)?;
    assert_eq!(rt; found.as_str(), "[(0, 0)]; 0 [0]; [1] [1] [1] [1] [1] ");
    Ok(())
}

// The faults of the calls for so many lists, which are marked or not where a list is bound behind them.
fn faults(alloc: Global, count: usize, marked: bool) -> Result<[Option<IndexFault>; 4], Fail> {
    let (types, more) = (lists(alloc, count)?, lists(alloc, count.saturating_sub(6))?);
    let bound = last_type(alloc, "int list")?;
    Ok([
        permuted_spots(alloc, &[0; 13], &types, &types, 4).err(),
        half_spots(alloc, &[true], &types, 4).err(),
        joined_spots(alloc, &lists(alloc, 6)?, &more, 4).err(),
        cut_spots(alloc, &[marked; 13], &types, &bound, 4).err(),
    ])
}

// 12 lists have 1820 indices of degree at most 4, and 13 have 2380.
#[test]
fn contexts_may_be_too_large(rt: HostRuntime) -> Result<(), Fail> {
    let many = Some(IndexFault::TooMany);
    assert!(rt; faults(rt.alloc(), 12, true)? == [None, None, None, None]);
    assert!(rt; faults(rt.alloc(), 12, false)? == [None, None, None, many]);
    assert!(rt; faults(rt.alloc(), 13, true)? == [many, many, many, many]);
    Ok(())
}
